// The listing program: lists the plan of plant.plt in its working folder (01, "The plant file and the listing").
#![tactic(auto)]

mod text;

ghost use Rattle.std.specs.Prelude.{◌≡◌, ◌+◌, ◌≤◌, length};
ghost use Rattle.plant_file.specs.PlantFile.{LONGEST};
ghost use Rattle.listing.specs.Reading.{NoneIfNotOpened};

use std::fs::{self, Files};
use std::io::{self, Read};

// One byte more than the longest plant file, so that a longer one is refused for its length. A function, since its clause says that the number is that.
fn room() -> [u8; 36875]
    ensures { length result ≡ LONGEST + 1 }
{
    [0u8; 36875]
}

// Reads an opened file up to the room there is, and returns how many bytes. One that can't be opened counts as one of 0 bytes.
fn read<R: Read + Drop>(opened: io::Result<R>, file: &mut [u8]) -> usize
    ensures none { NoneIfNotOpened opened result }
    ensures room { result ≤ length file.new }
{
    match opened {
        Ok(mut reader) => input::read_full(&mut reader, file),
        Err(_) => 0,
    }
}

fn load(rt: &impl Files, file: &mut [u8]) -> usize
    ensures { result ≤ length file.new }
{
    read(fs::open(rt, "plant.plt"), file)
}

fn main(rt: HostRuntime) -> io::Result<()> {
    let mut file = room();
    let count = load(&rt, &mut file);
    let mut out = [0u8; text::LONGEST];
    let end = text::write(&file[..count], &mut out);
    rt.write_all(&out[..end])
}

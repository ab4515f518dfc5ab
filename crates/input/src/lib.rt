// What a program reads into a list of fixed length.
#![tactic(auto)]

ghost use Rattle.std.specs.Prelude.{◌≤◌, length, take};
ghost use Rattle.std.specs.Io.KnownBytes.{Consumes};

use std::io::Read;

// Reads until the room is full, the input ends or a read fails, and returns how many bytes it put at the front.
// std's read_exact does not say how many where the input is shorter, and read_to_end wants a Vec, which has no fixed length.
pub fn read_full<R: Read>(reader: &mut R, file: &mut [u8]) -> usize
    ensures room { result ≤ length file.new }
    ensures bytes { Consumes (R.remaining reader.old) (R.remaining reader.new) (take result file.new) }
{
    let mut done: usize = 0;
    while done < file.len() {
        match reader.read(&mut file[done..]) {
            Ok(0) | Err(_) => break,
            Ok(count) => done += count,
        }
    }
    done
}

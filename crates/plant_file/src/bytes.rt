// 16-bit numbers of a list of bytes. What is past its end counts as 0.
ghost use Rattle.std.specs.Prelude.{◌≡◌, ◌+◌, ◌<◌, length};
ghost use Rattle.plant_file.specs.PlantFile.{number};

use lists::byte;

// The number at a place where both its bytes are. It stands beside number_at for a loop over many places: with a test for each number the call took a tenth more on a ring of 64 gateways.
#[tactic(auto, unfolding(crate::specs::PlantFile::number))]
pub(crate) fn number_in(file: &[u8], i: usize) -> u16
    requires { i + 1 < length file.now }
    ensures { result ≡ number file.now i }
{
    u16::from_le_bytes([file[i], file[i + 1]])
}

// The number at a place.
#[tactic(auto, unfolding(crate::specs::PlantFile::number))]
pub fn number_at(file: &[u8], i: usize) -> u16
    ensures { result ≡ number file.now i }
{
    if i < file.len() {
        u16::from_le_bytes([byte(file, i), byte(file, i + 1)])
    } else {
        0
    }
}

// The limit of each gateway (02, change 8): in version 1 it is T for all, in version 2 it goes by the pairs of bytes behind the order, kind and limit.
ghost use Rattle.std.specs.Prelude.{◌≡◌, ◌+◌, ◌*◌};
ghost use Rattle.packing.specs.Plant.{at};
ghost use Rattle.plant_file.specs.PlantFile.{file_n, file_m, kind_byte, limit_byte, limit_of_kind, effective_limit, file_limit, limit_allowed};

use lists::byte;

// The limit that a kind takes.
#[tactic(auto, unfolding(crate::specs::PlantFile::limit_of_kind))]
fn of_kind(t: u8, kind: u8) -> u8
    ensures { result ≡ limit_of_kind t kind }
{
    match kind {
        0 => t,
        1..=31 => 2,
        32..=127 => 4,
        128..=191 => 8,
        192..=255 => 16,
    }
}

// A pair's limit: as written, or by kind where 0 is written.
#[tactic(auto, unfolding(crate::specs::PlantFile::effective_limit))]
pub(crate) fn effective(t: u8, kind: u8, limit: u8) -> u8
    ensures { result ≡ effective_limit t kind limit }
{
    if limit == 0 { of_kind(t, kind) } else { limit }
}

// A byte of a gateway's pair, behind the links and the order: with 10 its kind, with 11 its limit.
fn pair_byte(file: &[u8], from: u8, v: u16) -> u8
    ensures { result ≡ at file.now (from + 4 * file_m file.now + 2 * file_n file.now + 2 * v) }
{
    let order = (from as usize) + 4 * (crate::link_count(file) as usize);
    let pairs = order + 2 * (crate::gateways(file) as usize);
    byte(file, pairs + 2 * (v as usize))
}

#[tactic(auto, unfolding(crate::specs::PlantFile::kind_byte))]
fn kind_byte(file: &[u8], v: u16) -> u8
    ensures { result ≡ kind_byte file.now v }
{
    pair_byte(file, 10, v)
}

#[tactic(auto, unfolding(crate::specs::PlantFile::limit_byte))]
fn limit_byte(file: &[u8], v: u16) -> u8
    ensures { result ≡ limit_byte file.now v }
{
    pair_byte(file, 11, v)
}

// The limit of a gateway. A byte past the end counts as 0.
#[tactic(auto, unfolding(crate::specs::PlantFile::file_limit))]
pub fn limit_of(file: &[u8], v: u16) -> u8
    ensures { result ≡ file_limit file.now v }
{
    let t = crate::limit(file);
    if crate::has_pairs(file) {
        effective(t, kind_byte(file, v), limit_byte(file, v))
    } else {
        t
    }
}

// Whether a limit byte is neither 1 nor above 16.
#[tactic(auto, unfolding(crate::specs::PlantFile::limit_allowed))]
pub(crate) fn is_allowed(limit: u8) -> bool
    ensures { result ≡ limit_allowed limit }
{
    limit != 1 && limit <= lists::HIGHEST
}

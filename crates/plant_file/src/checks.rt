// The refusals of a file's header and length, in 01's turn.
ghost use Rattle.std.specs.Prelude.{◌≡◌, ◌*◌, ◌||◌, eqb, ltb, length};
ghost use Rattle.refusal.specs.Refusals.{code};
ghost use Rattle.plant_file.specs.PlantFile.{file_n, file_m, file_length, begins_plt};
ghost use Rattle.plant_file.specs.Load.{load_refusal};
ghost use Rattle.plant_file.specs.Pre.{sizes_refusal, header_refusal};

use refusal::Refusal;

#[tactic(auto, unfolding(crate::specs::PlantFile::begins_plt))]
fn begins_plt(file: &[u8]) -> bool
    ensures { result ≡ begins_plt file.now }
{
    file.starts_with(b"PLT")
}

fn is_known(version: u16) -> bool
    ensures { result ≡ (eqb version 1 || eqb version 2) }
{
    matches!(version, 1 | 2)
}

// The length that the header gives.
#[tactic(auto, unfolding(crate::specs::PlantFile::file_length))]
fn length_given(file: &[u8]) -> usize
    ensures { result ≡ file_length file.now }
{
    let links = 10 + 4 * (crate::link_count(file) as usize);
    let n = crate::gateways(file) as usize;
    if crate::has_pairs(file) {
        links + 4 * n
    } else {
        links + 2 * n
    }
}

// The sizes that the header gives: 1, 2, 12, 9 for the length.
#[tactic(auto, unfolding(crate::specs::Pre::sizes_refusal))]
fn of_sizes(file: &[u8]) -> Result<(), Refusal>
    ensures { code result ≡ sizes_refusal file.now }
{
    if lists::GATEWAYS < crate::gateways(file) {
        return Err(Refusal::TooManyGateways);
    }
    let t = crate::limit(file);
    if t < lists::LOWEST || lists::HIGHEST < t {
        return Err(Refusal::LimitOutOfRange);
    }
    if lists::LINKS < crate::link_count(file) {
        return Err(Refusal::TooManyLinks);
    }
    if file.len() != length_given(file) {
        return Err(Refusal::WrongFileLength);
    }
    Ok(())
}

// 9 for under 10 bytes, 7, 8, and then the sizes.
#[tactic(auto, unfolding(crate::specs::Pre::header_refusal))]
pub(crate) fn of_header(file: &[u8]) -> Result<(), Refusal>
    ensures { code result ≡ header_refusal file.now }
{
    if file.len() < 10 {
        return Err(Refusal::WrongFileLength);
    }
    if !begins_plt(file) {
        return Err(Refusal::NotAPlantFile);
    }
    if !is_known(crate::version(file)) {
        return Err(Refusal::UnknownVersion);
    }
    of_sizes(file)
}

// Whether a lent list has not the places that the file's links, order or limits take.
fn is_short(file: &[u8], links: &[u16], order: &[u16], limits: &[u8]) -> bool
    ensures { result ≡ (ltb (length links.now) (2 * file_m file.now) || ltb (length order.now) (file_n file.now) || ltb (length limits.now) (file_n file.now)) }
{
    let n = crate::gateways(file) as usize;
    let ends = 2 * (crate::link_count(file) as usize);
    links.len() < ends || order.len() < n || limits.len() < n
}

// The file's refusal, then 10 for a lent list too short.
#[tactic(auto, unfolding(crate::specs::Load::load_refusal))]
pub(crate) fn of_load(
    file: &[u8],
    links: &[u16],
    order: &[u16],
    limits: &[u8],
) -> Result<(), Refusal>
    ensures { code result ≡ load_refusal file.now (length links.now) (length order.now) (length limits.now) }
{
    crate::check_then(file, is_short(file, links, order, limits))
}

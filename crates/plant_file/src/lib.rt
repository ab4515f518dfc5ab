// The plant file (01, "The plant file and the listing"; version 2: 02, change 8).
#![tactic(auto)]

pub mod bytes;
mod checks;
mod fill;
mod indexed;
pub mod limits;
pub mod reader;

ghost use Rattle.std.specs.Prelude.{◌≡◌, eqb, ltb, length, OnOk};
ghost use Rattle.packing.specs.Refusals.{refuse};
ghost use Rattle.refusal.specs.Refusals.{code};
ghost use Rattle.plant_file.specs.PlantFile.{file_version, file_n, file_t, file_m, file_refusal, file_then_short};
ghost use Rattle.plant_file.specs.Indexed.{Blank, Indexed};
ghost use Rattle.plant_file.specs.Load.{load_refusal, load_links, load_order, load_limits, order_written};

use refusal::Refusal;

// The version, n, T and m as the header's bytes give them. A byte past the end counts as 0.
#[tactic(auto, unfolding(crate::specs::PlantFile::file_version))]
pub fn version(file: &[u8]) -> u16
    ensures { result ≡ file_version file.now }
{
    bytes::number_at(file, 3)
}

// Whether each gateway has a pair of bytes, kind and limit, behind the order: in version 2.
pub(crate) fn has_pairs(file: &[u8]) -> bool
    ensures { result ≡ eqb (file_version file.now) 2 }
{
    version(file) == 2
}

#[tactic(auto, unfolding(crate::specs::PlantFile::file_n))]
pub fn gateways(file: &[u8]) -> u16
    ensures { result ≡ file_n file.now }
{
    bytes::number_at(file, 5)
}

#[tactic(auto, unfolding(crate::specs::PlantFile::file_t))]
pub fn limit(file: &[u8]) -> u8
    ensures { result ≡ file_t file.now }
{
    lists::byte(file, 7)
}

#[tactic(auto, unfolding(crate::specs::PlantFile::file_m))]
pub fn link_count(file: &[u8]) -> u16
    ensures { result ≡ file_m file.now }
{
    bytes::number_at(file, 8)
}

/// Checks the whole of any bytes, and leaves the file's links, the index of them, its order and its limits in lists. On refusal nothing is said of the lists.
pub fn load_indexed(
    file: &[u8],
    links: &mut [u16],
    next: &mut [u16],
    order: &mut [u16],
    limits: &mut [u8],
) -> Result<(), Refusal>
    requires { Blank file.now links.old next.old order.old limits.old }
    ensures answer { code result ≡ file_refusal file.now }
    ensures lists { OnOk result (Indexed file.now links.old order.old limits.old links.new next.new order.new limits.new) }
{
    checks::of_header(file)?;
    indexed::take_links(file, links, next)?;
    indexed::take_order(file, order)?;
    if !fill::with_limits(file, limits) {
        return Err(Refusal::LimitNotAllowed);
    }
    Ok(())
}

/// The first refusal of any bytes.
pub fn check(file: &[u8]) -> Result<(), Refusal>
    ensures { code result ≡ file_refusal file.now }
{
    let mut links = [0u16; lists::ENDS];
    let mut next = [lists::NONE; chains::SLOTS];
    let mut order = [0u16; lists::PLACES];
    let mut limits = [0u8; lists::PLACES];
    load_indexed(file, &mut links, &mut next, &mut order, &mut limits)
}

/// The file's refusal, then 10: short says that a lent list is too short.
pub fn check_then(file: &[u8], short: bool) -> Result<(), Refusal>
    ensures { code result ≡ file_then_short file.now short }
{
    check(file)?;
    if short {
        return Err(Refusal::ListTooShort);
    }
    Ok(())
}

/// The file's links, order and limits into lent lists. Its own refusal first, then 10 for a list too short; nothing is written on refusal.
pub fn load(
    file: &[u8],
    links: &mut [u16],
    order: &mut [u16],
    limits: &mut [u8],
) -> Result<(), Refusal>
    ensures answer { code result ≡ load_refusal file.now (length links.old) (length order.old) (length limits.old) }
    ensures links { links.new ≡ load_links file.now links.old order.old limits.old }
    ensures order { order.new ≡ load_order file.now links.old order.old limits.old }
    ensures limits { limits.new ≡ load_limits file.now links.old order.old limits.old }
{
    checks::of_load(file, links, order, limits)?;
    fill::with_links(file, links);
    fill::with_order(file, order);
    fill::with_limits(file, limits);
    Ok(())
}

/// The file's order alone into a lent list, with no check of the file: 10 where there are fewer than n places, and then nothing is written.
pub fn order(file: &[u8], out: &mut [u16]) -> Result<(), Refusal>
    ensures answer { code result ≡ refuse (ltb (length out.old) (file_n file.now)) 10 0 }
    ensures out { out.new ≡ order_written file.now out.old }
{
    if out.len() < gateways(file) as usize {
        return Err(Refusal::ListTooShort);
    }
    fill::with_order(file, out);
    Ok(())
}

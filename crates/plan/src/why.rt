// Why a gateway is alone in a file's plan, as lists of numbers (02, change 5).
ghost use Rattle.std.specs.Prelude.{◌≡◌, length, IfOk};
ghost use Rattle.refusal.specs.Refusals.{code};
ghost use Rattle.plan.specs.Why.{file_why_refusal, file_counts, first_written, second_written};

use crate::ask::ask_whole;
use crate::loaded::LoadedFile;
use refusal::Refusal;
use violator::WhyCounts;

// Writes the two sets of a gateway that the plan leaves alone. Answers how many gateways each has. Nothing is written on refusal.
pub fn why_lists(
    file: &[u8],
    gateway: u32,
    first: &mut [u16],
    second: &mut [u16],
) -> Result<WhyCounts, Refusal>
    ensures answer { code result ≡ file_why_refusal file.now gateway (length first.old) (length second.old) }
    ensures counts { IfOk result (λ counts. counts ≡ file_counts file.now gateway) }
    ensures first { first.new ≡ first_written file.now gateway first.old second.old }
    ensures second { second.new ≡ second_written file.now gateway first.old second.old }
{
    let mut links = [0u16; lists::ENDS];
    let mut next = [lists::NONE; chains::SLOTS];
    let mut order = [0u16; lists::PLACES];
    let mut limits = [0u8; lists::PLACES];
    plant_file::load_indexed(file, &mut links, &mut next, &mut order, &mut limits)?;
    if (plant_file::gateways(file) as u32) <= gateway {
        return Err(Refusal::OutOfRangeUnplacedOrKept);
    }
    let loaded = LoadedFile::new(file, &links, &next, &order, &limits);
    ask_whole(&loaded, gateway as u16, first, second)
}

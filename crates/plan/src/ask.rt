// Why a gateway is alone in the record that a file's calls make once all are placed by 01's search, without the calls. The file is accepted, and its lists and the index of its links are at hand.
ghost use Rattle.std.specs.Prelude.{◌≡◌, length, IfOk};
ghost use Rattle.refusal.specs.Refusals.{code};
ghost use Rattle.violator.specs.WhyAlone.{why_refusal, why_answer, why_first, why_second};
ghost use Rattle.violator.specs.WhyPlaced.{counts_of};
ghost use Rattle.plant_file.specs.PlantFile.{file_n};
ghost use Rattle.plan.specs.Plan.{file_state};
ghost use Rattle.plan.specs.Pre.{Making};

use crate::loaded::LoadedFile;
use crate::reading::make;
use crate::wanted::Wanted;
use crate::work::Work;
use lists::PLACES;
use planner::Way;
use refusal::Refusal;
use search::held::{Held, empty_rows};
use violator::WhyCounts;

// Makes the holders and asks, with lists to work in.
fn ask_made(
    loaded: &LoadedFile,
    work: &mut Work,
    gateway: u16,
    first: &mut [u16],
    second: &mut [u16],
) -> Result<WhyCounts, Refusal>
    requires { Making loaded.now.file.now (file_n loaded.now.file.now) work.old }
    ensures answer { code result ≡ why_refusal (file_state loaded.now.file.now) gateway (length first.old) (length second.old) }
    ensures counts { IfOk result (λ counts. counts ≡ counts_of (why_answer (file_state loaded.now.file.now) gateway (length first.old) (length second.old))) }
    ensures first { first.new ≡ why_first (file_state loaded.now.file.now) gateway first.old second.old }
    ensures second { second.new ≡ why_second (file_state loaded.now.file.now) gateway first.old second.old }
{
    let n = loaded.plant.links.n;
    let wanted = Wanted {
        way: Way::Queued,
        placings: n as u32,
    };
    make(loaded, wanted, work);
    violator::why_placed(
        &loaded.plant.links,
        n,
        loaded.order,
        work.held.holders,
        gateway,
        first,
        second,
    )
}

// .. with lists of its own. reading::read_with makes the same: the arrays live in the function that lends them, so that no one function could make them for both.
pub(crate) fn ask_whole(
    loaded: &LoadedFile,
    gateway: u16,
    first: &mut [u16],
    second: &mut [u16],
) -> Result<WhyCounts, Refusal>
    ensures answer { code result ≡ why_refusal (file_state loaded.now.file.now) gateway (length first.old) (length second.old) }
    ensures counts { IfOk result (λ counts. counts ≡ counts_of (why_answer (file_state loaded.now.file.now) gateway (length first.old) (length second.old))) }
    ensures first { first.new ≡ why_first (file_state loaded.now.file.now) gateway first.old second.old }
    ensures second { second.new ≡ why_second (file_state loaded.now.file.now) gateway first.old second.old }
{
    let end = loaded.plant.links.n as usize;
    let mut rows = empty_rows::<PLACES>();
    let mut holders = [0u16; PLACES];
    let mut queue = [0u16; PLACES];
    let mut dead = [lists::NONE; PLACES];
    let mut looked = [0u16; PLACES];
    let held = Held {
        rows: &mut rows,
        holders: &mut holders,
    };
    let mut work = Work {
        held,
        queue: &mut queue,
        dead: &mut dead[..end],
        looked: &mut looked,
    };
    ask_made(loaded, &mut work, gateway, first, second)
}

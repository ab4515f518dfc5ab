// The placings of a file, one after the other, on holders and rows that are kept.
ghost use Rattle.std.specs.Prelude.{◌≡◌};
ghost use Rattle.packing.specs.Plant.{at};
ghost use Rattle.packing.specs.Moved.{moved};
ghost use Rattle.search.specs.RowPre.{RowsOf};
ghost use Rattle.search.specs.Dead.{Past};
ghost use Rattle.planner.specs.Ways.{placed_by};
ghost use Rattle.plant_file.specs.PlantFile.{file_n};
ghost use Rattle.plan.specs.Plan.{state_by, file_moves_by};
ghost use Rattle.plan.specs.Pre.{DeadBy, Placings, DeadChoke};
ghost use Rattle.plan.specs.Work.{AsLong};

use crate::loaded::LoadedFile;
use crate::wanted::Wanted;
use crate::work::Work;
use planner::Way;
use recursion::any_plant::AnyPlant;
use search::plant::Plant;

// One placing. 01's search passes the dead by; the short one does not. A match on the way: a closed kind, see planner::Way.
fn place_one(way: Way, plant: &Plant, v: u16, work: &mut Work) -> u16
    requires { Past plant.now.links.n (at plant.now.limits.now) plant.now.links.ends.now work.old.held.holders.now v work.old.held.rows.now work.old.queue.now work.old.dead.now work.old.looked.now }
    ensures holders { work.new.held.holders.now ≡ placed_by way plant.now.links.n (at plant.now.limits.now) plant.now.links.ends.now work.old.held.holders.now v }
    ensures moved { result ≡ moved plant.now.links.n (at work.old.held.holders.now) (at (placed_by way plant.now.links.n (at plant.now.limits.now) plant.now.links.ends.now work.old.held.holders.now v)) }
    ensures rows { RowsOf plant.now.links.n (placed_by way plant.now.links.n (at plant.now.limits.now) plant.now.links.ends.now work.old.held.holders.now v) work.new.held.rows.now }
    ensures dead { DeadBy way plant.now.links.n (at plant.now.limits.now) plant.now.links.ends.now work.old.held.holders.now v work.old.dead.now (placed_by way plant.now.links.n (at plant.now.limits.now) plant.now.links.ends.now work.old.held.holders.now v) work.new.dead.now }
    ensures long { AsLong work.old work.new }
{
    match way {
        Way::Queued => search::past::place_past(
            plant,
            v,
            &mut work.held,
            work.queue,
            work.dead,
            work.looked,
        ),
        Way::Recursive => {
            let any = AnyPlant {
                n: plant.links.n,
                limits: plant.limits,
                links: plant.links.ends,
                next: plant.links.next,
            };
            recursion::place_kept(&any, v, &mut work.held)
        }
    }
}

// The first placings in the file's order. Returns how many gateways they move.
pub(crate) fn place_all(loaded: &LoadedFile, wanted: Wanted, work: &mut Work) -> u32
    requires { Placings wanted.way loaded.now.file.now wanted.placings work.old }
    ensures holders { work.new.held.holders.now ≡ (state_by wanted.way loaded.now.file.now wanted.placings).holders }
    ensures rows { RowsOf (file_n loaded.now.file.now) (state_by wanted.way loaded.now.file.now wanted.placings).holders work.new.held.rows.now }
    ensures moved { result ≡ file_moves_by wanted.way loaded.now.file.now wanted.placings }
    ensures dead { DeadChoke wanted.way loaded.now.file.now wanted.placings work.new.dead.now }
    ensures long { AsLong work.old work.new }
{
    let mut moved: u32 = 0;
    let end = wanted.placings as usize;
    for v in &loaded.order[..end] {
        moved += place_one(wanted.way, &loaded.plant, *v, work) as u32;
    }
    moved
}

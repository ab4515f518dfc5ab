// The placings of a plan, one after the other: the rows are kept from one to the next, and the dead are passed by.
ghost use Rattle.std.specs.Prelude.{◌≡◌};
ghost use Rattle.packing.specs.Moved.{moved};
ghost use Rattle.packing.specs.Plant.{at};
ghost use Rattle.search.specs.Search.{placed_holders};
ghost use Rattle.search.specs.Held.{SameHeld};
ghost use Rattle.search.specs.RowPre.{RowsOf};
ghost use Rattle.search.specs.Dead.{Past, DeadThen};

use crate::held::Held;
use crate::noted::take_back;
use crate::plant::Plant;
use crate::work::Work;

// Places v past the dead. Returns how many have another holder afterwards. Where v is left, all that the search saw are dead too; where it is kept, the marks of the search are taken back.
// No Option: 02's number (change 4, "0 for one left"), and the clause moved says it of both cases at once.
// queue, dead and looked stand apart: a Work is made of them here.
pub fn place_past(
    plant: &Plant,
    v: u16,
    held: &mut Held,
    queue: &mut [u16],
    dead: &mut [u16],
    looked: &mut [u16],
) -> u16
    requires { Past plant.now.links.n (at plant.now.limits.now) plant.now.links.ends.now held.old.holders.now v held.old.rows.now queue.old dead.old looked.old }
    ensures holders { held.new.holders.now ≡ placed_holders plant.now.links.n (at plant.now.limits.now) plant.now.links.ends.now held.old.holders.now v }
    ensures moved { result ≡ moved plant.now.links.n (at held.old.holders.now) (at (placed_holders plant.now.links.n (at plant.now.limits.now) plant.now.links.ends.now held.old.holders.now v)) }
    ensures rows { RowsOf plant.now.links.n (placed_holders plant.now.links.n (at plant.now.limits.now) plant.now.links.ends.now held.old.holders.now v) held.new.rows.now }
    ensures dead { DeadThen plant.now.links.n (at plant.now.limits.now) plant.now.links.ends.now held.old.holders.now v dead.old (placed_holders plant.now.links.n (at plant.now.limits.now) plant.now.links.ends.now held.old.holders.now v) dead.new }
    ensures same { SameHeld held.old held.new }
{
    let mut work = Work {
        queue,
        tail: 0,
        from: dead,
        looked,
        count: 0,
    };
    let moved = crate::settle(plant, v, held, &mut work);
    if moved != 0 {
        let Work {
            from,
            looked,
            count,
            ..
        } = work;
        take_back(&looked[..count], from);
    }
    moved
}

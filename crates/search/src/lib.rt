// Finds a holder for a gateway (01, "Placing"), on plain lists and numbers. The choke set, which takes the same walk, is module choke; who the walk from one gateway reaches, module reached.
#![tactic(auto)]

pub mod bytes;
pub mod choke;
pub mod held;
mod noted;
pub mod past;
pub mod plant;
pub mod reached;
pub mod shift;
mod start;
pub mod walk;
mod work;

ghost use Rattle.std.specs.Prelude.{◌≡◌, [], ◌∷◌};
ghost use Rattle.packing.specs.Plant.{at};
ghost use Rattle.packing.specs.Moved.{moved};
ghost use Rattle.search.specs.Search.{placeable, placed_holders, holders_after};
ghost use Rattle.search.specs.Moved.{place_answer};
ghost use Rattle.search.specs.Dead.{walk_past};
ghost use Rattle.search.specs.Work.{SameLists, SameBack};
ghost use Rattle.search.specs.Held.{SameHeld};
ghost use Rattle.search.specs.Pre.{Placeable, Settleable, Outcome};

use crate::held::{Held, empty_rows, gather};
use crate::plant::Plant;
use crate::shift::shift_back;
use crate::work::Work;
use std::ops::ControlFlow;

// Places v past those that are marked, with the table of the holders, and a queue to work in. Returns how many have another holder afterwards: 02's number (change 4), which is 0 where v is left, as Outcome says it; only then the marks are of use.
fn settle(plant: &Plant, v: u16, held: &mut Held, work: &mut Work) -> u16
    requires { Settleable plant.now.links.n held.old.holders.now v held.old.rows.now work.old.queue.now work.old.from.now }
    ensures outcome { Outcome plant.now.links.n v held.old.holders.now (walk_past plant.now.links.n (at plant.now.limits.now) plant.now.links.ends.now held.old.holders.now (v ∷ []) work.old.from.now) result held.new.holders.now work.new.from.now held.old.rows.now held.new.rows.now }
    ensures marks { SameBack work.old work.new }
    ensures same { SameLists work.old work.new }
    ensures held { SameHeld held.old held.new }
{
    work.queue[0] = v;
    work.tail = 1;
    let rows = &mut *held.rows;
    match walk::walk(plant, rows, work) {
        ControlFlow::Break((u, x)) => {
            let from = &mut *work.from;
            shift_back(plant.links.n, v, u, x, from, held)
        }
        ControlFlow::Continue(()) => 0,
    }
}

// Places v, which may be placed: the holders afterwards are those of 01's search. Returns how many have another holder.
fn place_unheld(plant: &Plant, v: u16, holders: &mut [u16]) -> u16
    requires { Placeable plant.now.links.n holders.old v }
    ensures holders { holders.new ≡ placed_holders plant.now.links.n (at plant.now.limits.now) plant.now.links.ends.now holders.old v }
    ensures moved { result ≡ moved plant.now.links.n (at holders.old) (at (placed_holders plant.now.links.n (at plant.now.limits.now) plant.now.links.ends.now holders.old v)) }
{
    let n = plant.links.n;
    let mut rows = empty_rows();
    gather(n, holders, &mut rows);
    let mut queue = [0u16; lists::PLACES];
    let mut from = [lists::NONE; lists::PLACES];
    let mut looked = [0u16; lists::PLACES];
    let end = n as usize;
    let mut work = Work {
        queue: &mut queue,
        tail: 0,
        from: &mut from[..end],
        looked: &mut looked,
        count: 0,
    };
    let mut held = Held {
        rows: &mut rows,
        holders,
    };
    settle(plant, v, &mut held, &mut work)
}

// Whether v may be placed.
#[tactic(auto, unfolding(crate::specs::Search::placeable))]
pub fn is_placeable(n: u16, v: u16, holders: &[u16]) -> bool
    ensures { result ≡ placeable n holders.now v }
{
    sound::held::is_searchable(n, holders) && v < n && n <= lists::entry(holders, v)
}

// Places v. Answers how many gateways have another holder afterwards; or None where v may not be placed, and nothing is changed.
pub fn place(plant: &Plant, v: u16, holders: &mut [u16]) -> Option<u16>
    ensures answer { result ≡ place_answer plant.now.links.n (at plant.now.limits.now) plant.now.links.ends.now holders.old v }
    ensures holders { holders.new ≡ holders_after plant.now.links.n (at plant.now.limits.now) plant.now.links.ends.now holders.old v }
{
    if !is_placeable(plant.links.n, v, holders) {
        return None;
    }
    Some(place_unheld(plant, v, holders))
}

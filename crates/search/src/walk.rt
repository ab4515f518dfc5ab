// The search for a gateway with a place free. It breaks off there, with whom it was looked at from. What a gateway holds, it learns from the table alone.
ghost use Rattle.std.specs.Prelude.{◌≡◌, ◌<◌, length, take};
ghost use Rattle.packing.specs.Plant.{at, neighbours};
ghost use Rattle.search.specs.Search as model;
ghost use Rattle.search.specs.Search.{more};
ghost use Rattle.search.specs.Dead.{walk_past};
ghost use Rattle.search.specs.Work.{SameLists, SameBack};
ghost use Rattle.search.specs.Pre.{ForEach, ForSome, Is, Ready, Walkable};

use crate::held::{Row, has_place, join};
use crate::plant::Plant;
use crate::work::Work;
use chains::chain::Chain;
use std::ops::ControlFlow;

// Looks at u, a gateway, from x. If it marks u, u is noted.
fn look(plant: &Plant, x: u16, u: u16, rows: &[Row], work: &mut Work) -> ControlFlow<(u16, u16)>
    requires { (u < length work.old.from.now) × (length work.old.from.now ≡ plant.now.links.n) × ForSome rows.now (λ n hs. Ready n x hs work.old.queue.now work.old.tail work.old.from.now) }
    ensures state { ForEach rows.now (λ n hs. Ready n x hs work.old.queue.now work.old.tail work.old.from.now) (λ n hs. Is result work.new.tail work.new.queue.now work.new.from.now (model.look n (at plant.now.limits.now) hs x u (take work.old.tail work.old.queue.now) work.old.from.now)) }
    ensures marks { SameBack work.old work.new }
    ensures same { SameLists work.old work.new }
{
    if work.from[u as usize] != lists::NONE {
        return ControlFlow::Continue(());
    }
    work.from[u as usize] = x;
    work.looked[work.count] = u;
    work.count += 1;
    if has_place(&rows[u as usize], plant.limits[u as usize]) {
        return ControlFlow::Break((u, x));
    }
    work.tail = join(&rows[u as usize], work.queue, work.tail);
    ControlFlow::Continue(())
}

// Goes through x's links in order of arrival, along its chain.
fn visit(plant: &Plant, x: u16, rows: &[Row], work: &mut Work) -> ControlFlow<(u16, u16)>
    requires { (length work.old.from.now ≡ plant.now.links.n) × ForSome rows.now (λ n hs. Ready n x hs work.old.queue.now work.old.tail work.old.from.now) }
    ensures state { ForEach rows.now (λ n hs. Ready n x hs work.old.queue.now work.old.tail work.old.from.now) (λ n hs. Is result work.new.tail work.new.queue.now work.new.from.now (model.visit n (at plant.now.limits.now) hs x (neighbours plant.now.links.ends.now x) (more (take work.old.tail work.old.queue.now) work.old.from.now))) }
    ensures marks { SameBack work.old work.new }
    ensures same { SameLists work.old work.new }
{
    let end = chains::first_end(plant.links.next, x);
    for u in (Chain {
        links: plant.links.ends,
        next: plant.links.next,
        end,
    }) {
        look(plant, x, u, rows, work)?;
    }
    ControlFlow::Continue(())
}

// The search from those queued, past those that are marked. A limit of 0 leaves nobody a place free. All that it marks are noted. It is no `for`: the queue grows meanwhile.
pub(crate) fn walk(plant: &Plant, rows: &[Row], work: &mut Work) -> ControlFlow<(u16, u16)>
    requires { (length work.old.from.now ≡ plant.now.links.n) × ForSome rows.now (λ n hs. Walkable n hs work.old.queue.now work.old.tail work.old.from.now) }
    ensures state { ForEach rows.now (λ n hs. Walkable n hs work.old.queue.now work.old.tail work.old.from.now) (λ n hs. Is result work.new.tail work.new.queue.now work.new.from.now (walk_past n (at plant.now.limits.now) plant.now.links.ends.now hs (take work.old.tail work.old.queue.now) work.old.from.now)) }
    ensures marks { SameBack work.old work.new }
    ensures same { SameLists work.old work.new }
{
    let mut head: usize = 0;
    while head < work.tail {
        let x = work.queue[head];
        visit(plant, x, rows, work)?;
        head += 1;
    }
    ControlFlow::Continue(())
}

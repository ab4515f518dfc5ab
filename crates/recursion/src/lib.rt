// The short search (02, change 7): finds a holder for a gateway by two functions that call each other. At full depth a call of each stands for every two gateways, so they have few lists and no arrays of their own; only their contracts use n.
#![tactic(auto)]

pub mod any_plant;

ghost use Rattle.std.specs.Prelude.{◌≡◌, suc, ◌+◌, ◌*◌, take};
ghost use Rattle.packing.specs.Plant.{at};
ghost use Rattle.packing.specs.Moved.{moved};
ghost use Rattle.search.specs.Held.{SameHeld};
ghost use Rattle.search.specs.RowPre.{RowsOf};
ghost use Rattle.recursion.specs.Recursion.{find_holder, free_place, recursive_holders, recursive_after, recursive_answer};
ghost use Rattle.recursion.specs.Pre.{untried, Working, Ends, RowsEnd, Front, SmallLimits, Fits, PlaceableBy};

use crate::any_plant::AnyPlant;
use chains::chain::Chain;
use search::held::{Held, ROW};
use search::shift::take;

// Finds a holder for v: goes through its links in order of arrival and frees a place at a neighbour not yet tried. If one is freed, v has that neighbour as its holder. Returns how many have another holder then, and None where no place is freed.
#[cycle(find_holder_free_place)]
fn find_holder(
    plant: &AnyPlant,
    v: u16,
    held: &mut Held,
    tried: &mut [u16; lists::PLACES],
) -> Option<u16>
    requires { Working plant.now.n v (at held.old.holders.now v) held.old.rows.now held.old.holders.now tried.old }
    ensures ends { Ends result held.old.holders.now held.new.holders.now (take plant.now.n tried.old) (take plant.now.n tried.new) (λ calls. find_holder calls plant.now.n (at plant.now.limits.now) plant.now.links.now held.old.holders.now v (take plant.now.n tried.old)) (2 * untried (take plant.now.n tried.old) + 1) (moved plant.now.n (at held.old.holders.now) (at held.new.holders.now)) }
    ensures rows { RowsEnd result plant.now.n held.new.holders.now held.old.rows.now held.new.rows.now (Fits plant.now.n (at plant.now.limits.now) held.old.holders.now v) }
    ensures marks { Front plant.now.n tried.old tried.new }
    ensures same { SameHeld held.old held.new }
{
    let end = chains::first_end(plant.next, v);
    for u in (Chain {
        links: plant.links,
        next: plant.next,
        end,
    }) {
        if lists::entry(tried, u) == lists::NONE {
            lists::put(tried, u, 0);
            if let Some(k) = free_place(plant, u, held, tried) {
                take(v, u, held);
                return Some(k);
            }
        }
    }
    None
}

// Frees a place at u: at once where u holds fewer than its limit; else goes through what it holds, ascending, and finds another holder for one of them. Returns one more than have another holder then, and None where no place is freed.
#[cycle(find_holder_free_place)]
fn free_place(
    plant: &AnyPlant,
    u: u16,
    held: &mut Held,
    tried: &mut [u16; lists::PLACES],
) -> Option<u16>
    requires { Working plant.now.n u u held.old.rows.now held.old.holders.now tried.old }
    ensures ends { Ends result held.old.holders.now held.new.holders.now (take plant.now.n tried.old) (take plant.now.n tried.new) (λ calls. free_place calls plant.now.n (at plant.now.limits.now) plant.now.links.now held.old.holders.now u (take plant.now.n tried.old)) (2 * untried (take plant.now.n tried.old) + 2) (suc (moved plant.now.n (at held.old.holders.now) (at held.new.holders.now))) }
    ensures rows { RowsEnd result plant.now.n held.new.holders.now held.old.rows.now held.new.rows.now (SmallLimits plant.now.n (at plant.now.limits.now)) }
    ensures marks { Front plant.now.n tried.old tried.new }
    ensures same { SameHeld held.old held.new }
{
    if search::held::has_place(
        &held.rows[u as usize],
        lists::byte(plant.limits, u as usize),
    ) {
        return Some(1);
    }
    for i in 0..ROW {
        let x = held.rows[u as usize][i];
        if x == lists::NONE {
            return None;
        }
        if let Some(k) = find_holder(plant, x, held, tried) {
            return Some(k + 1);
        }
    }
    None
}

// Places v, which may be placed, with the table of the holders, which is kept. Returns how many have another holder afterwards.
// No Option: 02's number (change 4, "0 for one left"), and the clause moved says it of both cases at once.
pub fn place_kept(plant: &AnyPlant, v: u16, held: &mut Held) -> u16
    requires { PlaceableBy plant.now.n held.old.holders.now v held.old.rows.now }
    ensures holders { held.new.holders.now ≡ recursive_holders plant.now.n (at plant.now.limits.now) plant.now.links.now held.old.holders.now v }
    ensures moved { result ≡ moved plant.now.n (at held.old.holders.now) (at (recursive_holders plant.now.n (at plant.now.limits.now) plant.now.links.now held.old.holders.now v)) }
    ensures rows { Fits plant.now.n (at plant.now.limits.now) held.old.holders.now v → RowsOf plant.now.n (recursive_holders plant.now.n (at plant.now.limits.now) plant.now.links.now held.old.holders.now v) held.new.rows.now }
    ensures same { SameHeld held.old held.new }
{
    let mut tried = [0u16; lists::PLACES];
    lists::fill::with_value(plant.n as usize, lists::NONE, &mut tried);
    find_holder(plant, v, held, &mut tried).unwrap_or(0)
}

// Places v. Answers how many gateways have another holder afterwards; or None where v may not be placed, and nothing is changed.
pub fn place(plant: &AnyPlant, v: u16, holders: &mut [u16]) -> Option<u16>
    ensures answer { result ≡ recursive_answer plant.now.n (at plant.now.limits.now) plant.now.links.now holders.old v }
    ensures holders { holders.new ≡ recursive_after plant.now.n (at plant.now.limits.now) plant.now.links.now holders.old v }
{
    let n = plant.n;
    if !search::is_placeable(n, v, holders) {
        return None;
    }
    let mut rows = search::held::empty_rows();
    search::held::gather(n, holders, &mut rows);
    let mut held = Held {
        rows: &mut rows,
        holders,
    };
    Some(place_kept(plant, v, &mut held))
}

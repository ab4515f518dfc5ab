// Whether a leader list is a grouping (01, "Demand 3"), by one pass over the links and two over the list.
ghost use Rattle.std.specs.Prelude.{◌≡◌, ◌||◌, eqb};
ghost use Rattle.std.specs.List.{list_all, range_with_len};
ghost use Rattle.packing.specs.Plant.{NONE, at, linked};
ghost use Rattle.packing.specs.Grouping.{is_grouping};
ghost use Rattle.checker.specs.Pre.{leads_by, joins_by, is_entry};

use crate::plant::Plant;
use lists::marks::is_marked;
use lists::{byte, entry};

// Whether v's entry is its own number, with one to its limit of members. counts has how often each number stands in the list: v itself is one of them.
#[tactic(auto, unfolding(crate::specs::Pre::leads_by))]
fn is_leading(plant: &Plant, v: u16, leaders: &[u16], counts: &[u16]) -> bool
    ensures { result ≡ leads_by plant.now.limits.now leaders.now counts.now v }
{
    let k = entry(counts, v);
    let limit = byte(plant.limits, v as usize) as u16;
    entry(leaders, v) == v && 2 <= k && k <= limit + 1
}

// Whether v's entry is a gateway linked to it that has its own number as entry. marks has 1 for each gateway that is linked to its entry.
#[tactic(auto, unfolding(crate::specs::Pre::joins_by))]
fn is_joining(plant: &Plant, v: u16, leaders: &[u16], marks: &[u16]) -> bool
    ensures { result ≡ joins_by plant.now.n leaders.now marks.now v }
{
    let u = entry(leaders, v);
    u < plant.n && is_marked(marks, v) && entry(leaders, u) == u
}

// Whether v's entry is one of the three.
#[tactic(auto, unfolding(crate::specs::Pre::is_entry))]
fn is_entry(plant: &Plant, v: u16, leaders: &[u16], counts: &[u16], marks: &[u16]) -> bool
    ensures { result ≡ is_entry plant.now.n plant.now.limits.now leaders.now counts.now marks.now v }
{
    entry(leaders, v) == lists::NONE
        || is_leading(plant, v, leaders, counts)
        || is_joining(plant, v, leaders, marks)
}

// Whether each entry is one of the three, by what was gathered of the list and of the links.
fn each_is_entry(plant: &Plant, leaders: &[u16], counts: &[u16], marks: &[u16]) -> bool
    ensures { result ≡ list_all (is_entry plant.now.n plant.now.limits.now leaders.now counts.now marks.now) (range_with_len 0 plant.now.n) }
{
    (0..plant.n).all(|v| is_entry(plant, v, leaders, counts, marks))
}

pub(crate) fn is_grouping(plant: &Plant, leaders: &[u16]) -> bool
    ensures { result ≡ is_grouping plant.now.n (at plant.now.limits.now) (linked plant.now.links.now) (at leaders.now) }
{
    let counts = lists::counts::tally(plant.n, leaders);
    let marks = sound::links::linked_entries(plant.links, leaders);
    each_is_entry(plant, leaders, &counts, &marks)
}

// Whether a choke list's difference (00, demand 2) is the number of entries of 65535 in a leader list, by one pass over the links.
ghost use Rattle.std.specs.Prelude.{◌≡◌, not, ◌&&◌, ◌*◌, ◌≤◌, eqb, ltb};
ghost use Rattle.std.specs.List.{list_any, range_with_len};
ghost use Rattle.packing.specs.Count.{pick, count, sum_over};
ghost use Rattle.packing.specs.Plant.{at, linked};
ghost use Rattle.packing.specs.Choke.{is_difference};
ghost use Rattle.checker.specs.Check.{in_set, alone_count};
ghost use Rattle.checker.specs.Pre.{outward_marks};

use crate::plant::Plant;
use lists::marks::{is_marked, mark_if};
use lists::{PLACES, byte};

// Whether one of the first n bytes is neither 0 nor 1.
pub(crate) fn has_other_byte(n: u16, choke: &[u8]) -> bool
    ensures { result ≡ list_any (λ v. ltb 1 (at choke.now v)) (range_with_len 0 n) }
{
    (0..n).any(|v| 1 < byte(choke, v as usize))
}

#[tactic(auto, unfolding(crate::specs::Check::in_set))]
fn is_outside(choke: &[u8], v: u16) -> bool
    ensures { result ≡ not (in_set choke.now v) }
{
    byte(choke, v as usize) != 1
}

// Marks each gateway that has a link to one outside the set.
fn outward_marks(links: &[u16], choke: &[u8]) -> [u16; PLACES]
    ensures { result ≡ outward_marks links.now choke.now }
{
    let mut marks = [0u16; lists::PLACES];
    for &[a, b] in links.as_chunks::<2>().0 {
        mark_if(is_outside(choke, b), &mut marks, a);
        mark_if(is_outside(choke, a), &mut marks, b);
    }
    marks
}

// Whether v is left without a link once the set is taken away: v is outside it and not marked.
fn is_stranded(choke: &[u8], marks: &[u16], v: u16) -> bool
    ensures { result ≡ (not (in_set choke.now v) && not (eqb (at marks.now v) 1)) }
{
    is_outside(choke, v) && !is_marked(marks, v)
}

// How many gateways are stranded.
fn stranded_count(n: u16, choke: &[u8], marks: &[u16]) -> u16
    ensures { result ≡ count n (λ v. not (in_set choke.now v) && not (eqb (at marks.now v) 1)) }
{
    lists::counts::count_where(n, |v| is_stranded(choke, marks, v))
}

// v's limit where v is in the set, else 0.
fn limit_of(limits: &[u8], choke: &[u8], v: u16) -> u8
    ensures { result ≡ pick (in_set choke.now v) (at limits.now v) }
{
    if is_outside(choke, v) {
        0
    } else {
        byte(limits, v as usize)
    }
}

// The sum of the set's limits. By `map(..).sum()` it is no plainer: the call asks for a proof that the sum fits before `small` is known, and both clauses want theirs besides.
fn limits_sum(n: u16, limits: &[u8], choke: &[u8]) -> u32
    ensures sum { result ≡ sum_over n (in_set choke.now) (at limits.now) }
    ensures small { result ≤ 255 * n }
{
    let mut total: u32 = 0;
    for v in 0..n {
        total += limit_of(limits, choke, v) as u32;
    }
    total
}

// Stated as a sum, so that a difference below zero is no number of entries.
pub(crate) fn is_difference(plant: &Plant, leaders: &[u16], choke: &[u8]) -> bool
    ensures { result ≡ is_difference plant.now.n (at plant.now.limits.now) (linked plant.now.links.now) (in_set choke.now) (alone_count plant.now.n (at leaders.now)) }
{
    let marks = outward_marks(plant.links, choke);
    let stranded = stranded_count(plant.n, choke, &marks) as u32;
    let alone = lists::counts::count_of(plant.n, leaders, lists::NONE) as u32;
    stranded == alone + limits_sum(plant.n, plant.limits, choke)
}

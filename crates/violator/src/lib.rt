// Why a gateway is alone (02, change 5): a look at a record, at any k. It gives a Hall violator around a gateway that is placed and left, and its neighbours.
#![tactic(auto)]

ghost use Rattle.std.specs.Prelude.{◌≡◌, true, length, IfOk};
ghost use Rattle.refusal.specs.Refusals.{code};
ghost use Rattle.sound.specs.Searchable.{searchable};
ghost use Rattle.planner.specs.State.{state_of};
ghost use Rattle.violator.specs.WhyAlone.{is_placed, why_conditions, why_answer, why_first, why_second};
ghost use Rattle.violator.specs.WhyPlaced.{placed_counts, placed_first, placed_second, why_answered};

use planner::Small;
use refusal::Refusal;
use search::plant::Links;

// The refusal's number, or 0 for accepted, the small part as it came, and how many gateways each set has, 0 on refusal.
// No Result: the small part comes back on a refusal too, as with planner's Answer, and why_answer and the claims over the call speak of all four.
#[derive(Clone, Copy, Debug, PartialEq, Eq)]
pub struct WhyAnswer {
    pub refusal: u32,
    pub small: Small,
    pub first: u16,
    pub second: u16,
}

// How many gateways each set has, by the names of 02, change 5; search::reached::Reached has them by those of the walk.
#[derive(Clone, Copy, Debug, PartialEq, Eq)]
pub struct WhyCounts {
    pub first: u16,
    pub second: u16,
}

impl WhyAnswer {
    // By the small part, and what the look gave.
    fn of(small: Small, looked: Result<WhyCounts, Refusal>) -> WhyAnswer
        ensures { result ≡ why_answered small looked }
    {
        match looked {
            Ok(counts) => WhyAnswer {
                refusal: 0,
                small,
                first: counts.first,
                second: counts.second,
            },
            Err(refusal) => WhyAnswer {
                refusal: refusal.number(),
                small,
                first: 0,
                second: 0,
            },
        }
    }
}

// Whether v stands among the first k of the order.
fn is_placed(k: u16, order: &[u16], v: u16) -> bool
    ensures { result ≡ is_placed k order.now v }
{
    (0..k).any(|i| lists::entry(order, i) == v)
}

// The first refusal after 26, for lists with room for so many. Only the lengths of the lists for the sets are of use, so no struct lends them.
#[tactic(auto, unfolding(crate::specs::WhyAlone::why_conditions))]
fn refusal_of(
    n: u16,
    k: u16,
    order: &[u16],
    holders: &[u16],
    v: u16,
    room: usize,
    room2: usize,
) -> Result<(), Refusal>
    ensures { code result ≡ why_conditions n k order.now holders.now v room room2 }
{
    if n <= v || !is_placed(k, order, v) || lists::entry(holders, v) < n {
        return Err(Refusal::OutOfRangeUnplacedOrKept);
    }
    if room < n as usize || room2 < n as usize {
        return Err(Refusal::ListTooShort);
    }
    Ok(())
}

/// The look without the check of the record, for a caller who knows that it is sound. The links are the plant's and no more.
/// Refusal::OutOfRangeUnplacedOrKept, 30, or Refusal::ListTooShort, 10.
// The two sets stand apart, as in search::reached::write_sets.
pub fn why_placed(
    links: &Links,
    k: u16,
    order: &[u16],
    holders: &[u16],
    gateway: u16,
    first: &mut [u16],
    second: &mut [u16],
) -> Result<WhyCounts, Refusal>
    requires { searchable links.now.n holders.now ≡ true }
    ensures refusal { code result ≡ why_conditions links.now.n k order.now holders.now gateway (length first.old) (length second.old) }
    ensures counts { IfOk result (λ counts. counts ≡ placed_counts links.now.n links.now.ends.now holders.now gateway) }
    ensures first { first.new ≡ placed_first links.now.n k links.now.ends.now order.now holders.now gateway first.old second.old }
    ensures second { second.new ≡ placed_second links.now.n k links.now.ends.now order.now holders.now gateway first.old second.old }
{
    let n = links.n;
    refusal_of(n, k, order, holders, gateway, first.len(), second.len())?;
    // There are: where a search may be made, a gateway without holder may be walked from.
    let reached = search::reached::reached_from(links, gateway, holders, first, second).unwrap();
    Ok(WhyCounts {
        first: reached.queued,
        second: reached.seen,
    })
}

// The look at a record, or its first refusal.
fn try_alone(
    small: Small,
    links: &[u16],
    order: &[u16],
    holders: &[u16],
    limits: &[u8],
    gateway: u16,
    first: &mut [u16],
    second: &mut [u16],
) -> Result<WhyCounts, Refusal>
    ensures answer { why_answered small result ≡ why_answer (state_of small links.now order.now holders.now limits.now) gateway (length first.old) (length second.old) }
    ensures first { first.new ≡ why_first (state_of small links.now order.now holders.now limits.now) gateway first.old second.old }
    ensures second { second.new ≡ why_second (state_of small links.now order.now holders.now limits.now) gateway first.old second.old }
{
    small.check(links, order, holders, limits)?;
    let ends = &links[..2 * (small.m as usize)];
    let next = chains::build::index_of(ends);
    let links = Links {
        n: small.n,
        ends,
        next: &next,
    };
    why_placed(&links, small.k, order, holders, gateway, first, second)
}

// Writes the two sets, ascending, to the front of the lent lists, and nothing past them. Nothing is written on refusal.
pub fn why_alone(
    small: Small,
    links: &[u16],
    order: &[u16],
    holders: &[u16],
    limits: &[u8],
    gateway: u16,
    first: &mut [u16],
    second: &mut [u16],
) -> WhyAnswer
    ensures answer { result ≡ why_answer (state_of small links.now order.now holders.now limits.now) gateway (length first.old) (length second.old) }
    ensures first { first.new ≡ why_first (state_of small links.now order.now holders.now limits.now) gateway first.old second.old }
    ensures second { second.new ≡ why_second (state_of small links.now order.now holders.now limits.now) gateway first.old second.old }
{
    let looked = try_alone(small, links, order, holders, limits, gateway, first, second);
    WhyAnswer::of(small, looked)
}

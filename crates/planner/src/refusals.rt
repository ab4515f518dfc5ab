// The first refusal of each call, in 01's turn; Ok where no condition holds.
ghost use Rattle.std.specs.Prelude.{◌≡◌, ◌≤◌, ◌*◌, length};
ghost use Rattle.packing.specs.Plant.{GATEWAYS, first_links};
ghost use Rattle.refusal.specs.Refusals.{code};
ghost use Rattle.planner.specs.Refusals.{open_refusal, link_conditions, order_conditions, limit_conditions, place_conditions, read_conditions};

use crate::Small;
use lists::{GATEWAYS, HIGHEST, LINKS, LOWEST};
use refusal::Refusal;
use sound::links::is_linked;

#[tactic(auto, unfolding(crate::specs::Refusals::open_refusal))]
pub(crate) fn of_open(
    n: u16,
    t: u8,
    order: &[u16],
    holders: &[u16],
    limits: &[u8],
) -> Result<(), Refusal>
    ensures { code result ≡ open_refusal n t order.now holders.now limits.now }
{
    if GATEWAYS < n {
        return Err(Refusal::TooManyGateways);
    }
    if t < LOWEST || HIGHEST < t {
        return Err(Refusal::LimitOutOfRange);
    }
    let places = n as usize;
    if order.len() < places || holders.len() < places || limits.len() < places {
        return Err(Refusal::ListTooShort);
    }
    Ok(())
}

// After 26. links is the whole lent list, of which the first m links count.
#[tactic(auto, unfolding(crate::specs::Refusals::link_conditions, packing::specs::Plant::first_links))]
pub(crate) fn of_link(small: Small, links: &[u16], a: u16, b: u16) -> Result<(), Refusal>
    requires { 2 * small.m ≤ length links.now }
    ensures { code result ≡ link_conditions small.n small.k small.m (first_links small.m links.now) (length links.now) a b }
{
    if 0 < small.k {
        return Err(Refusal::AfterFirstPlacing);
    }
    if small.n <= a || small.n <= b {
        return Err(Refusal::EndOutOfRange);
    }
    if a == b {
        return Err(Refusal::EndsEqual);
    }
    let end = 2 * (small.m as usize);
    if is_linked(&links[..end], a, b) {
        return Err(Refusal::AlreadyLinked);
    }
    if small.m == LINKS || links.len() < end + 2 {
        return Err(Refusal::NoPlaceForLink);
    }
    Ok(())
}

// After 26.
#[tactic(auto, using(sound::proofs::Orders::order_answer), unfolding(crate::specs::Refusals::order_conditions))]
pub(crate) fn of_order(small: Small, numbers: &[u16]) -> Result<(), Refusal>
    requires { small.n ≤ GATEWAYS }
    ensures { code result ≡ order_conditions small.n small.k numbers.now }
{
    if 0 < small.k {
        return Err(Refusal::AfterFirstPlacing);
    }
    if numbers.len() != small.n as usize {
        return Err(Refusal::WrongOrderLength);
    }
    if !sound::is_order(small.n, numbers) {
        return Err(Refusal::NotAnOrder);
    }
    Ok(())
}

// After 26.
#[tactic(auto, unfolding(crate::specs::Refusals::limit_conditions))]
pub(crate) fn of_limit(small: Small, gateway: u16, limit: u8) -> Result<(), Refusal>
    ensures { code result ≡ limit_conditions small.n small.k gateway limit }
{
    if 0 < small.k {
        return Err(Refusal::AfterFirstPlacing);
    }
    if small.n <= gateway {
        return Err(Refusal::OutOfRangeUnplacedOrKept);
    }
    if !sound::is_limit(limit) {
        return Err(Refusal::LimitNotAllowed);
    }
    Ok(())
}

// After 26.
#[tactic(auto, unfolding(crate::specs::Refusals::place_conditions))]
pub(crate) fn of_place(small: Small) -> Result<(), Refusal>
    ensures { code result ≡ place_conditions small.n small.k }
{
    if small.k == small.n {
        return Err(Refusal::AllPlaced);
    }
    Ok(())
}

// After 26.
#[tactic(auto, unfolding(crate::specs::Refusals::read_conditions))]
pub(crate) fn of_read(small: Small, leaders: &[u16], choke: &[u8]) -> Result<(), Refusal>
    ensures { code result ≡ read_conditions small.n (length leaders.now) (length choke.now) }
{
    if leaders.len() < small.n as usize || choke.len() < small.n as usize {
        return Err(Refusal::ListTooShort);
    }
    Ok(())
}

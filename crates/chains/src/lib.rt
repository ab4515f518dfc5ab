// The index of links: each gateway's links in order of arrival, as a chain. It goes through the far ends, the places at which the neighbours stand, so that a neighbour is read where the chain is.
#![tactic(auto)]

pub mod build;
pub mod chain;
pub mod follow;

ghost use Rattle.std.specs.Prelude.{◌≡◌, ◌<◌, ◌≤◌, length};
ghost use Rattle.packing.specs.Plant.{GATEWAYS, at};
ghost use Rattle.chains.specs.Index.{root_of};

// The most places of an index: one for each end of a link, and one for each gateway.
pub const SLOTS: usize = 17408;

// Those of a small one: the ends of 512 links, and the gateways.
pub const SMALL: usize = 2048;

// The place of x's first far end.
pub fn first_end(next: &[u16], x: u16) -> u16
    requires { (GATEWAYS ≤ length next.now) × (x < GATEWAYS) }
    ensures { result ≡ at next.now (root_of (length next.now) x) }
{
    next[next.len() - lists::PLACES + (x as usize)]
}

// The neighbour at place e of a chain. Its body is next_end's too: the two names say of which list the place is read.
pub fn neighbour_at(links: &[u16], e: u16) -> u16
    requires { e < length links.now }
    ensures { result ≡ at links.now e }
{
    links[e as usize]
}

// The place of the far end that comes after place e in its chain.
pub fn next_end(next: &[u16], e: u16) -> u16
    requires { e < length next.now }
    ensures { result ≡ at next.now e }
{
    next[e as usize]
}

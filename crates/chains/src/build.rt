// Building the index, link by link. last has the place of the index where each gateway's next far end is to be written: its root at first, then the place of its last far end, so that an empty chain is no case apart.
ghost use Rattle.std.specs.Prelude.{◌≡◌, ◌+◌, ◌*◌, ◌<◌, ◌≤◌, length, slice_set};
ghost use Rattle.packing.specs.Lists.{list_of};
ghost use Rattle.packing.specs.Plant.{NONE, GATEWAYS, ENDS, at};
ghost use Rattle.chains.specs.Index.{SLOTS, root_of, Index};
ghost use Rattle.chains.specs.Build.{Joining, Built, Ready, Adding};

use crate::SLOTS;
use lists::PLACES;

// The last places of empty chains in an index of so many places: the roots. By numbers of 16 bits: by places of usize the loop takes some 2,700 instructions more, half of a small plant's call.
pub fn with_roots(slots: usize, last: &mut [u16])
    requires { (GATEWAYS ≤ slots) × (slots ≤ SLOTS) × (length last.old ≡ GATEWAYS) }
    ensures { last.new ≡ list_of GATEWAYS (root_of slots) }
{
    let first = (slots - PLACES) as u16;
    for x in 0..lists::GATEWAYS {
        last[x as usize] = first + x;
    }
}

// Hangs an end to the chain of x. The two lists stay two parameters: a method on a struct that holds them could exchange what is lent in it, so that each contract would have to say that it does not.
fn hang(x: u16, end: u16, next: &mut [u16], last: &mut [u16])
    requires { (x < length last.old) × (at last.old x < length next.old) }
    ensures next { next.new ≡ slice_set next.old (at last.old x) end }
    ensures last { last.new ≡ slice_set last.old x end }
{
    let place = last[x as usize];
    next[place as usize] = end;
    last[x as usize] = end;
}

// Hangs link m to the chains of its two ends: to each the place at which the other stands.
fn hang_link(links: &[u16], m: u16, next: &mut [u16], last: &mut [u16])
    requires { Ready links.now m next.old last.old }
    ensures { Built links.now (m + 1) next.new last.new }
{
    let place = 2 * (m as usize);
    let a = links[place];
    let b = links[place + 1];
    hang(b, 2 * m, next, last);
    hang(a, 2 * m + 1, next, last);
}

// Writes the ends of link m to their places among the links, and hangs it.
pub fn add_link(m: u16, a: u16, b: u16, links: &mut [u16], next: &mut [u16], last: &mut [u16])
    requires { Adding links.old m a b next.old last.old }
    ensures links { links.new ≡ slice_set (slice_set links.old (2 * m) a) (2 * m + 1) b }
    ensures built { Built links.new (m + 1) next.new last.new }
{
    let place = 2 * (m as usize);
    links[place] = a;
    links[place + 1] = b;
    hang_link(links, m, next, last);
}

// The index of a list of links.
pub fn index_of(links: &[u16]) -> [u16; SLOTS]
    requires { (length links.now ≤ ENDS) × Joining links.now }
    ensures { Index links.now result }
{
    let mut next = [lists::NONE; SLOTS];
    let mut last = [0u16; PLACES];
    with_roots(SLOTS, &mut last);
    for m in 0..(links.len() / 2) as u16 {
        hang_link(links, m, &mut next, &mut last);
    }
    next
}

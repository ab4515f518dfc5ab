// Passes over the lists, one for each clause of soundness. What is past a list's end counts as 0, so lists of any lengths are passed over.
ghost use Rattle.std.specs.Prelude.{◌≡◌, ◌≤◌};
ghost use Rattle.packing.specs.Plant.{GATEWAYS, at};
ghost use Rattle.sound.specs.Sound.{ends_sound, holders_linked, holders_within, limits_sound, once_each, only_placed_held};

use crate::links::linked_entries;
use crate::marks::are_ends;
use lists::counts::tally;
use lists::marks::is_marked;
use lists::{byte, entry};

// The limits: whether each of the first n is one of 2 to 16.
pub(crate) fn limits_sound(n: u16, limits: &[u8]) -> bool
    ensures { result ≡ limits_sound n limits.now }
{
    (0..n).all(|v| crate::is_limit(byte(limits, v as usize)))
}

// The links: whether the ends of each differ and are below n.
pub(crate) fn ends_sound(n: u16, links: &[u16]) -> bool
    ensures { result ≡ ends_sound n links.now }
{
    let (pairs, _) = links.as_chunks::<2>();
    pairs.iter().all(|&[a, b]| are_ends(n, a, b))
}

// The order: whether its first n hold each gateway once.
pub(crate) fn once_each(n: u16, order: &[u16]) -> bool
    requires { n ≤ GATEWAYS }
    ensures { result ≡ once_each n order.now }
{
    let counts = tally(n, order);
    (0..n).all(|v| entry(&counts, v) == 1)
}

// The holders: whether each is none, or linked to its gateway.
pub(crate) fn holders_linked(n: u16, links: &[u16], holders: &[u16]) -> bool
    requires { n ≤ GATEWAYS }
    ensures { result ≡ holders_linked n links.now holders.now }
{
    let marks = linked_entries(links, holders);
    (0..n).all(|v| entry(holders, v) == lists::NONE || is_marked(&marks, v))
}

// .. and whether none holds more than its limit.
pub(crate) fn holders_within(n: u16, limits: &[u8], holders: &[u16]) -> bool
    requires { n ≤ GATEWAYS }
    ensures { result ≡ holders_within n (at limits.now) holders.now }
{
    let loads = tally(n, holders);
    (0..n).all(|v| entry(&loads, v) <= u16::from(byte(limits, v as usize)))
}

// .. and whether only the first k in the order are held.
pub(crate) fn only_placed_held(n: u16, k: u16, order: &[u16], holders: &[u16]) -> bool
    ensures { result ≡ only_placed_held n k order.now holders.now }
{
    (0..n).all(|i| i < k || entry(holders, entry(order, i)) == lists::NONE)
}

// Whether a link is there, by the chain of one of its ends.
ghost use Rattle.std.specs.Prelude.{◌≡◌, ◌<◌, ◌⊎◌, length};
ghost use Rattle.packing.specs.Plant.{GATEWAYS, linked};
ghost use Rattle.chains.specs.Index.{Index};

use crate::chain::Chain;

// Whether x and y are linked, by the chain of x.
fn is_there(links: &[u16], next: &[u16], x: u16, y: u16) -> bool
    requires { Index links.now next.now × (x < GATEWAYS) }
    ensures { result ≡ linked links.now x y }
{
    let end = crate::first_end(next, x);
    for u in (Chain { links, next, end }) {
        if u == y {
            return true;
        }
    }
    false
}

// The one of a and b whose chain is the shorter by a list of the lengths.
fn shorter(degrees: &[u16], a: u16, b: u16) -> u16
    requires { (a < length degrees.now) × (b < length degrees.now) }
    ensures { (result ≡ a) ⊎ (result ≡ b) }
{
    if degrees[b as usize] < degrees[a as usize] {
        b
    } else {
        a
    }
}

// Whether a and b are linked, by the shorter chain. One call for both, so that which it is costs no jump.
pub fn is_linked(links: &[u16], next: &[u16], degrees: &[u16], a: u16, b: u16) -> bool
    requires { Index links.now next.now × (length degrees.now ≡ GATEWAYS) × (a < GATEWAYS) × (b < GATEWAYS) }
    ensures { result ≡ linked links.now a b }
{
    let x = shorter(degrees, a, b);
    is_there(links, next, x, a + b - x)
}

// Counts a link more of x. The count is a hint alone, so that it may wrap.
pub fn lengthen(degrees: &mut [u16], x: u16)
    requires { x < length degrees.old }
{
    let place = x as usize;
    degrees[place] = degrees[place].wrapping_add(1);
}

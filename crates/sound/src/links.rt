// Looking a link up, and the links of all gateways to their entries in a list.
ghost use Rattle.std.specs.Prelude.{◌≡◌};
ghost use Rattle.packing.specs.Plant.{joins, linked};
ghost use Rattle.sound.specs.Marks.{linked_entries};

use crate::marks::note;
use lists::PLACES;

// Whether the link a-b joins x and y, either way round.
fn is_joining(a: u16, b: u16, x: u16, y: u16) -> bool
    ensures { result ≡ joins a b x y }
{
    a == x && b == y || a == y && b == x
}

// Whether x and y are linked by a list of two numbers for each link.
pub fn is_linked(links: &[u16], x: u16, y: u16) -> bool
    ensures { result ≡ linked links.now x y }
{
    let (pairs, _) = links.as_chunks::<2>();
    pairs.iter().any(|&[a, b]| is_joining(a, b, x, y))
}

// 1 for each gateway that is linked to its entry in a list, else 0.
pub fn linked_entries(links: &[u16], list: &[u16]) -> [u16; PLACES]
    ensures { result ≡ linked_entries links.now list.now }
{
    let mut marks = [0u16; PLACES];
    let (pairs, _) = links.as_chunks::<2>();
    for &[a, b] in pairs {
        note(a, b, list, &mut marks);
        note(b, a, list, &mut marks);
    }
    marks
}

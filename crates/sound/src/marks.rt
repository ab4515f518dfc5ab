// The steps of the passes over the links: the test of a link's ends, and a mark of a gateway whose holder is linked to it.
ghost use Rattle.std.specs.Prelude.{◌≡◌, not, ◌&&◌, eqb, ltb};
ghost use Rattle.sound.specs.Marks.{noted, entry_is};

use lists::entry;

pub(crate) fn are_ends(n: u16, a: u16, b: u16) -> bool
    ensures { result ≡ (not (eqb a b) && ltb a n && ltb b n) }
{
    a != b && a < n && b < n
}

// Marks v, where u is its holder and v has a place among the marks.
pub(crate) fn note(v: u16, u: u16, holders: &[u16], marks: &mut [u16])
    ensures { marks.new ≡ noted (entry_is holders.now) marks.old v u }
{
    lists::marks::mark_if(entry(holders, v) == u, marks, v);
}

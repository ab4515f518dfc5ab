// Which leaders have one member, and which one it is. What is known stands as a number, in a list that served write_groups before (fixed memory; Partner is of numbers).
ghost use Rattle.std.specs.Prelude.{◌≡◌, cond, ◌≤◌, eqb};
ghost use Rattle.packing.specs.Plant.{GATEWAYS, NONE, at};
ghost use Rattle.stars.specs.Pre.{Partners};

use lists::fill::with_value;
use lists::{GATEWAYS, NONE, PLACES, entry, put};

// What is known of a leader's members once w is one of them: w alone, or more than one.
fn with_member(known: u16, w: u16) -> u16
    ensures { result ≡ cond (eqb known NONE) w GATEWAYS }
{
    if known == NONE { w } else { GATEWAYS }
}

// For each leader its one member; 65535 where it has none, and 1,024 where it has more.
pub(crate) fn partners_of(n: u16, groups: &[u16], partners: &mut [u16; PLACES])
    requires { n ≤ GATEWAYS }
    ensures { Partners n n (at groups.now) partners.new }
{
    with_value(n as usize, NONE, partners);
    for w in 0..n {
        let u = entry(groups, w);
        if u != w {
            let known = entry(partners, u);
            put(partners, u, with_member(known, w));
        }
    }
}

// Each gateway's leader by rules 1 to 4.
ghost use Rattle.std.specs.Prelude.{◌≡◌, cond, ◌<◌, ltb, length};
ghost use Rattle.packing.specs.Lists.{list_of};
ghost use Rattle.packing.specs.Plant.{NONE};
ghost use Rattle.stars.specs.Stars.{leader_of};
ghost use Rattle.stars.specs.Pre.{Read};

use lists::marks::is_marked;
use lists::{NONE, entry};

// u, where it is a gateway.
fn gateway_or_none(n: u16, u: u16) -> u16
    ensures { result ≡ cond (ltb u n) u NONE }
{
    if u < n { u } else { NONE }
}

// v's leader: itself, the next on its cycle, or its holder.
fn leader_of(n: u16, holders: &[u16], nexts: &[u16], leading: &[u16], v: u16) -> u16
    requires { (Read n holders.now leading.now nexts.now) × (v < n) }
    ensures { result ≡ leader_of n holders.now v }
{
    if is_marked(leading, v) {
        return v;
    }
    let next = entry(nexts, v);
    if next != NONE {
        return next;
    }
    gateway_or_none(n, entry(holders, v))
}

// The leader of each gateway.
pub(crate) fn leaders_of(
    n: u16,
    holders: &[u16],
    nexts: &[u16],
    leading: &[u16],
    groups: &mut [u16],
)
    requires { (Read n holders.now leading.now nexts.now) × (n ≡ length groups.old) }
    ensures { groups.new ≡ list_of n (leader_of n holders.now) }
{
    for v in 0..n {
        let place = v as usize;
        groups[place] = leader_of(n, holders, nexts, leading, v);
    }
}

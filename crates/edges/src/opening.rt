// Open: its refusals in turn, and what it writes. Each list has two places more than the gateways need.
use crate::lines;
use crate::parts::{self, LARGE, Numbers};
use planner::Small;
use std::io;

// n, T, and the lengths of the order, the holders and the limits; what came is 7 in each place.
pub(crate) fn case(rt: &impl Print, label: &[u8], a: &Numbers) -> io::Result<()> {
    let mut order = [7u16; 6];
    let mut holders = [7u16; 6];
    let mut limits = [7u8; 6];
    let r = Small::open(
        a[2],
        parts::byte(a[3]),
        &[7; 4],
        parts::front_mut(&mut order, usize::from(a[4])),
        parts::front_mut(&mut holders, usize::from(a[5])),
        parts::front_mut(&mut limits, usize::from(a[6])),
    );
    lines::answer(rt, label, r)?;
    lines::list(rt, &order)?;
    lines::list(rt, &holders)?;
    lines::list(rt, &limits)?;
    lines::kept(rt, order == [7; 6] && holders == [7; 6] && limits == [7; 6])
}

// n, the length of the order and the holders, and the limits' length; shown are the four places where the gateways end, of each list.
pub(crate) fn large(rt: &impl Print, label: &[u8], a: &Numbers) -> io::Result<()> {
    let mut order = [7u16; LARGE];
    let mut holders = [7u16; LARGE];
    let mut limits = [7u8; LARGE];
    let len = usize::from(a[3]);
    let r = Small::open(
        a[2],
        lists::HIGHEST,
        &[7; 4],
        parts::front_mut(&mut order, len),
        parts::front_mut(&mut holders, len),
        parts::front_mut(&mut limits, usize::from(a[4])),
    );
    lines::answer(rt, label, r)?;
    lines::list(rt, &order[1022..1026])?;
    lines::list(rt, &holders[1022..1026])?;
    lines::list(rt, &limits[1022..1026])?;
    println!(rt;)
}

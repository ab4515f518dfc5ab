// Link: its refusals in turn. The record: links 0-1 and 1-2 of 4 gateways, T = 2, room for one link more and two places past it.
use crate::parts::Numbers;
use crate::{lines, parts};
use planner::Small;
use std::io;

// n, m, k, the links' length and the two ends
pub(crate) fn case(rt: &impl Print, label: &[u8], a: &Numbers) -> io::Result<()> {
    let came = [0u16, 1, 1, 2, 7, 7, 8, 8];
    let mut links = came;
    let order = [0u16, 1, 2, 3, 9];
    let holders = [lists::NONE, lists::NONE, lists::NONE, lists::NONE, 9];
    let limits = [2u8; 5];
    let s = Small {
        n: a[2],
        t: 2,
        m: a[3],
        k: a[4],
    };
    let r = s.link(
        parts::front_mut(&mut links, usize::from(a[5])),
        &order,
        &holders,
        &limits,
        a[6],
        a[7],
    );
    lines::answer(rt, label, r)?;
    lines::after(rt, &links, &came)
}

// The call for one limit: its refusals in turn, and what it writes. The record: 4 gateways, no links, a limit of 3 for each and two places past them.
use crate::parts::Numbers;
use crate::{lines, parts};
use planner::Small;
use std::io;

// T, k, the limits' length, the gateway and the limit
pub(crate) fn case(rt: &impl Print, label: &[u8], a: &Numbers) -> io::Result<()> {
    let links = [7u16; 2];
    let order = [0u16, 1, 2, 3];
    let holders = [lists::NONE; 4];
    let came = [3u8, 3, 3, 3, 7, 7];
    let mut limits = came;
    let s = Small {
        n: 4,
        t: parts::byte(a[2]),
        m: 0,
        k: a[3],
    };
    let r = s.set_limit(
        &links,
        &order,
        &holders,
        parts::front_mut(&mut limits, usize::from(a[4])),
        a[5],
        parts::byte(a[6]),
    );
    lines::answer(rt, label, r)?;
    lines::after(rt, &limits, &came)
}

// Order: its refusals in turn. The record: 4 gateways, no links, two places past the order.
use crate::parts::Numbers;
use crate::{lines, parts};
use planner::Small;
use std::io;

// n, k, how many numbers are told, and six numbers
pub(crate) fn case(rt: &impl Print, label: &[u8], a: &Numbers) -> io::Result<()> {
    let came = [0u16, 1, 2, 3, 7, 7];
    let mut order = came;
    let links = [7u16; 2];
    let holders = [lists::NONE; 4];
    let limits = [2u8; 4];
    let s = Small {
        n: a[2],
        t: 2,
        m: 0,
        k: a[3],
    };
    let r = s.order(
        &links,
        &mut order,
        &holders,
        &limits,
        parts::front(&a[5..], usize::from(a[4])),
    );
    lines::answer(rt, label, r)?;
    lines::after(rt, &order, &came)
}

// Placing, in either way and in both by turns: its refusals, 01's listing step by step, and placings that move several holders.
use crate::lines;
use crate::parts::{self, Numbers};
use crate::record::Record;
use planner::{Small, Way};
use std::io;

// n, T and k of 01's listing, which is fully placed but for k; each limit 2
pub(crate) fn case(rt: &impl Print, label: &[u8], way: Way, a: &Numbers) -> io::Result<()> {
    let links = [0u16, 2, 0, 3, 0, 4, 1, 2];
    let order = [2u16, 3, 4, 0, 1];
    let came = [2u16, 2, 1, 0, 0, 9, 9, 9];
    let mut holders = came;
    let limits = [2u8; 5];
    let s = Small {
        n: a[2],
        t: parts::byte(a[3]),
        m: 4,
        k: a[4],
    };
    let r = s.place_by(way, &links, &order, &mut holders, &limits);
    lines::placed(rt, label, r)?;
    lines::after(rt, &holders, &came)
}

// One placing after the other, on 8 places of holders: one way for the first, the other for the next, and so on.
pub(crate) fn place_each(
    rt: &impl Print,
    label: &[u8],
    one: Way,
    other: Way,
    record: &mut Record,
) -> io::Result<()> {
    for i in 0..8 {
        let r = record.place(if i % 2 == 0 { one } else { other });
        lines::placed(rt, label, r)?;
        lines::list(rt, record.holders)?;
        println!(rt;)?;
    }
    Ok(())
}

// n, m, eight places of order and seven links
pub(crate) fn steps(
    rt: &impl Print,
    label: &[u8],
    one: Way,
    other: Way,
    a: &Numbers,
) -> io::Result<()> {
    let mut record = Record {
        small: Small {
            n: a[2],
            t: 2,
            m: a[3],
            k: 0,
        },
        links: &a[12..],
        order: &a[4..],
        holders: &mut [lists::NONE; 8],
        limits: &[2; 8],
    };
    place_each(rt, label, one, other, &mut record)
}

// Each clause of soundness broken alone, told by link: 22 on the sound record, whose first two are placed, and 26 on each other.
// The record: 4 gateways, T and each limit 2, links 0-1, 0-2, 0-3, order 1 2 0 3, 0 holds 1 and 2.
use crate::lines;
use crate::parts::{self, LARGE, LARGE_LINKS, Numbers};
use planner::Small;
use std::io;

// The lists stand apart, and not as a record::Record: that lends the holders to be written and the links to be read, and here `link` writes the links.
fn probe(
    rt: &impl Print,
    label: &[u8],
    s: Small,
    links: &mut [u16],
    order: &[u16],
    holders: &[u16],
    limits: &[u8],
) -> io::Result<()> {
    let came = parts::digest(links);
    let r = s.link(links, order, holders, limits, 1, 2);
    lines::answer(rt, label, r)?;
    lines::kept(rt, parts::digest(links) == came)
}

// n, T, m, k, the lengths of links, order and holders, the last link, the order, the holders, and the limits' length and five limits
pub(crate) fn case(rt: &impl Print, label: &[u8], a: &Numbers) -> io::Result<()> {
    let mut links = [0u16, 1, 0, 2, a[9], a[10]];
    let limits = [a[20], a[21], a[22], a[23], a[24]].map(parts::byte);
    let s = Small {
        n: a[2],
        t: parts::byte(a[3]),
        m: a[4],
        k: a[5],
    };
    probe(
        rt,
        label,
        s,
        parts::front_mut(&mut links, usize::from(a[6])),
        parts::front(&a[11..], usize::from(a[7])),
        parts::front(&a[15..], usize::from(a[8])),
        parts::front(&limits, usize::from(a[19])),
    )
}

// Any n and m: the order 0, 1, .., and the link 0-1 each time.
pub(crate) fn large(rt: &impl Print, label: &[u8], n: u16, m: u16) -> io::Result<()> {
    // array::from_fn would make each list twice on the stack.
    let mut links = [0u16; LARGE_LINKS];
    for (i, end) in links.iter_mut().enumerate() {
        *end = (i % 2) as u16;
    }
    let mut order = [0u16; LARGE];
    for (i, v) in order.iter_mut().enumerate() {
        *v = (i % 65536) as u16;
    }
    let s = Small { n, t: 2, m, k: 1 };
    probe(
        rt,
        label,
        s,
        &mut links,
        &order,
        &[lists::NONE; LARGE],
        &[2; LARGE],
    )
}

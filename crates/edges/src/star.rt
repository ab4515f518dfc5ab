// What a limit changes: the star 0-1, 0-2, 0-3, 0-4 with T = 3. Its centre gets a limit of its own, then all are placed.
use crate::parts::{self, Numbers};
use crate::record::Record;
use crate::{asking, lines, placing, reading};
use planner::{Small, Way};
use std::io;

const LINKS: [u16; 8] = [0, 1, 0, 2, 0, 3, 0, 4];

const ORDER: [u16; 5] = [0, 1, 2, 3, 4];

// Sets the limit of 0, shows all limits, and goes on with the record.
fn limited<F: FnOnce(&mut Record) -> io::Result<()> + Drop>(
    rt: &impl Print,
    label: &[u8],
    limit: u16,
    go_on: F,
) -> io::Result<()>
    requires { F.IsAlwaysCallable go_on }
{
    let mut holders = [lists::NONE; 8];
    let mut limits = [3u8; 5];
    let s = Small {
        n: 5,
        t: 3,
        m: 4,
        k: 0,
    };
    let r = s.set_limit(&LINKS, &ORDER, &holders, &mut limits, 0, parts::byte(limit));
    lines::answer(rt, label, r)?;
    lines::list(rt, &limits)?;
    println!(rt;)?;
    go_on(&mut Record {
        small: r.small,
        links: &LINKS,
        order: &ORDER,
        holders: &mut holders,
        limits: &limits,
    })
}

// the limit
pub(crate) fn placings(rt: &impl Print, label: &[u8], way: Way, a: &Numbers) -> io::Result<()> {
    limited(rt, label, a[2], |record| {
        placing::place_each(rt, label, way, way, record)
    })
}

// the limit
pub(crate) fn reads(rt: &impl Print, label: &[u8], a: &Numbers) -> io::Result<()> {
    limited(rt, label, a[2], |record| {
        reading::read_each(rt, label, record)
    })
}

// the limit, and the gateway that is asked for
pub(crate) fn asks(rt: &impl Print, label: &[u8], a: &Numbers) -> io::Result<()> {
    limited(rt, label, a[2], |record| {
        asking::ask_each(rt, label, record, a[3])
    })
}

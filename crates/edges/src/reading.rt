// Read: its refusals in turn, and what it writes, also before the last placing.
use crate::parts::Numbers;
use crate::record::Record;
use crate::{lines, parts};
use planner::{Small, Way};
use std::io;

// What came is 9 in each of the first shown places of both lists.
fn show(rt: &impl Print, leaders: &[u16; 5], choke: &[u8; 5], shown: usize) -> io::Result<()> {
    let leaders = parts::front(leaders, shown);
    let choke = parts::front(choke, shown);
    lines::list(rt, leaders)?;
    lines::list(rt, choke)?;
    lines::kept(
        rt,
        leaders.iter().all(|u| *u == 9) && choke.iter().all(|b| *b == 9),
    )
}

// The path 0-1, 1-2, with the holders told; fully placed, 1 holds 0 and 2, 0 holds 1. Each limit is 2.
// T, k, the leaders' length, the choke bytes' length, the three holders, and how many places of both lists are shown
pub(crate) fn case(rt: &impl Print, label: &[u8], a: &Numbers) -> io::Result<()> {
    let links = [0u16, 1, 1, 2];
    let order = [0u16, 1, 2];
    let limits = [2u8; 3];
    let mut leaders = [9u16; 5];
    let mut choke = [9u8; 5];
    let s = Small {
        n: 3,
        t: parts::byte(a[2]),
        m: 2,
        k: a[3],
    };
    let r = s.read(
        &links,
        &order,
        &a[6..],
        &limits,
        parts::front_mut(&mut leaders, usize::from(a[4])),
        parts::front_mut(&mut choke, usize::from(a[5])),
    );
    lines::answer(rt, label, r)?;
    show(rt, &leaders, &choke, usize::from(a[9]))
}

fn read_once(rt: &impl Print, label: &[u8], record: &Record) -> io::Result<()> {
    let mut leaders = [9u16; 5];
    let mut choke = [9u8; 5];
    lines::answer(rt, label, record.read(&mut leaders, &mut choke))?;
    show(rt, &leaders, &choke, 5)
}

// A read before the first placing and after each, of five gateways at most.
pub(crate) fn read_each(rt: &impl Print, label: &[u8], record: &mut Record) -> io::Result<()> {
    for _ in 0..6 {
        read_once(rt, label, record)?;
        record.place(Way::Queued);
    }
    Ok(())
}

// n, T, m, five places of order and five links
pub(crate) fn steps(rt: &impl Print, label: &[u8], a: &Numbers) -> io::Result<()> {
    let t = parts::byte(a[3]);
    let mut record = Record {
        small: Small {
            n: a[2],
            t,
            m: a[4],
            k: 0,
        },
        links: &a[10..],
        order: &a[5..],
        holders: &mut [lists::NONE; 5],
        limits: &[t; 5],
    };
    read_each(rt, label, &mut record)
}

// Why a gateway is alone (02, change 5): its refusals in turn, two left whose sets differ, and the answer before and after each placing.
use crate::parts::Numbers;
use crate::record::Record;
use crate::{lines, parts};
use planner::{Small, Way};
use std::io;
use violator::WhyAnswer;

// The number and the small part, the two counts, and both lists; what came is 9 in each place.
fn show(
    rt: &impl Print,
    label: &[u8],
    a: WhyAnswer,
    first: &[u16; 10],
    second: &[u16; 10],
) -> io::Result<()> {
    let came = [9u16; 10];
    lines::refusal(rt, label, a.refusal)?;
    print!(rt; " |")?;
    lines::small(rt, a.small)?;
    print!(rt; " | {} {}", a.first, a.second)?;
    lines::list(rt, first)?;
    lines::list(rt, second)?;
    lines::kept(rt, *first == came && *second == came)
}

// Two stars of three leaves each, 0 and 4 with 3 and 7 left, fully placed but for k; each limit 2.
// T, k, the gateway, and the lengths of the lists of the first set and the second
pub(crate) fn case(rt: &impl Print, label: &[u8], a: &Numbers) -> io::Result<()> {
    let links = [0u16, 1, 0, 2, 0, 3, 4, 5, 4, 6, 4, 7];
    let order = [0u16, 1, 2, 3, 4, 5, 6, 7];
    let holders = [1u16, 0, 0, lists::NONE, 5, 4, 4, lists::NONE];
    let limits = [2u8; 8];
    let mut first = [9u16; 10];
    let mut second = [9u16; 10];
    let s = Small {
        n: 8,
        t: parts::byte(a[2]),
        m: 6,
        k: a[3],
    };
    let r = violator::why_alone(
        s,
        &links,
        &order,
        &holders,
        &limits,
        a[4],
        parts::front_mut(&mut first, usize::from(a[5])),
        parts::front_mut(&mut second, usize::from(a[6])),
    );
    show(rt, label, r, &first, &second)
}

// The record comes back as it came, so the placings go on from it.
fn ask_once(rt: &impl Print, label: &[u8], record: &mut Record, gateway: u16) -> io::Result<()> {
    let mut first = [9u16; 10];
    let mut second = [9u16; 10];
    let r = record.why_alone(gateway, &mut first, &mut second);
    record.small = r.small;
    show(rt, label, r, &first, &second)
}

// Asked before the first placing and after each, of eight gateways at most.
pub(crate) fn ask_each(
    rt: &impl Print,
    label: &[u8],
    record: &mut Record,
    gateway: u16,
) -> io::Result<()> {
    for _ in 0..9 {
        ask_once(rt, label, record, gateway)?;
        record.place(Way::Queued);
    }
    Ok(())
}

// n, T, m, the gateway, eight places of order and six links
pub(crate) fn steps(rt: &impl Print, label: &[u8], a: &Numbers) -> io::Result<()> {
    let t = parts::byte(a[3]);
    let mut record = Record {
        small: Small {
            n: a[2],
            t,
            m: a[4],
            k: 0,
        },
        links: &a[14..],
        order: &a[6..],
        holders: &mut [lists::NONE; 8],
        limits: &[t; 8],
    };
    ask_each(rt, label, &mut record, a[5])
}

// One record told by each call that takes one: 26 by all of them where a limit alone breaks soundness.
// The record: 4 gateways, T = 2, links 0-1, 0-2, 0-3, order 1 2 3 0, the first three placed; 0 holds 1 and 2, and 3 is left.
use crate::lines;
use crate::parts::{self, Numbers};
use planner::{Answer, PlaceAnswer, Small};
use std::io;

const SMALL: Small = Small {
    n: 4,
    t: 2,
    m: 3,
    k: 3,
};

const LINKS: [u16; 6] = [0, 1, 0, 2, 0, 3];

const ORDER: [u16; 4] = [1, 2, 3, 0];

const HOLDERS: [u16; 4] = [lists::NONE, 0, 0, lists::NONE];

// The call's name stands after the label; kept says whether what it may write is as it came.
fn show(rt: &impl Print, label: &[u8], call: &[u8], a: Answer, same: bool) -> io::Result<()> {
    rt.write_all(label)?;
    lines::answer(rt, call, a)?;
    lines::kept(rt, same)
}

fn link(rt: &impl Print, label: &[u8], limits: &[u8]) -> io::Result<()> {
    let mut own = LINKS;
    let r = SMALL.link(&mut own, &ORDER, &HOLDERS, limits, 1, 2);
    show(rt, label, b", link", r, own == LINKS)
}

fn order_again(rt: &impl Print, label: &[u8], limits: &[u8]) -> io::Result<()> {
    let mut own = ORDER;
    let r = SMALL.order(&LINKS, &mut own, &HOLDERS, limits, &[3, 2, 1, 0]);
    show(rt, label, b", order", r, own == ORDER)
}

// came is of the case, whose numbers may be above a byte.
fn set_limit(rt: &impl Print, label: &[u8], limits: &mut [u8], came: &[u16]) -> io::Result<()> {
    let r = SMALL.set_limit(&LINKS, &ORDER, &HOLDERS, limits, 0, 3);
    let same = limits
        .iter()
        .map(|b| u16::from(*b))
        .eq(came.iter().copied());
    show(rt, label, b", set_limit", r, same)
}

// The same of a placing.
fn show_placed(
    rt: &impl Print,
    label: &[u8],
    call: &[u8],
    a: PlaceAnswer,
    own: [u16; 4],
) -> io::Result<()> {
    rt.write_all(label)?;
    lines::placed(rt, call, a)?;
    lines::kept(rt, own == HOLDERS)
}

fn place(rt: &impl Print, label: &[u8], limits: &[u8]) -> io::Result<()> {
    let mut own = HOLDERS;
    let r = SMALL.place(&LINKS, &ORDER, &mut own, limits);
    show_placed(rt, label, b", place", r, own)
}

fn place_recursive(rt: &impl Print, label: &[u8], limits: &[u8]) -> io::Result<()> {
    let mut own = HOLDERS;
    let r = SMALL.place_recursive(&LINKS, &ORDER, &mut own, limits);
    show_placed(rt, label, b", place_recursive", r, own)
}

fn read(rt: &impl Print, label: &[u8], limits: &[u8]) -> io::Result<()> {
    let mut leaders = [9u16; 4];
    let mut choke = [9u8; 4];
    let r = SMALL.read(&LINKS, &ORDER, &HOLDERS, limits, &mut leaders, &mut choke);
    show(
        rt,
        label,
        b", read",
        r,
        leaders == [9; 4] && choke == [9; 4],
    )
}

fn why_alone(rt: &impl Print, label: &[u8], limits: &[u8]) -> io::Result<()> {
    let mut first = [9u16; 4];
    let mut second = [9u16; 4];
    let r = violator::why_alone(
        SMALL,
        &LINKS,
        &ORDER,
        &HOLDERS,
        limits,
        3,
        &mut first,
        &mut second,
    );
    let answer = Answer {
        refusal: r.refusal,
        small: r.small,
    };
    show(
        rt,
        label,
        b", why_alone",
        answer,
        first == [9; 4] && second == [9; 4],
    )
}

// the limits' length and five limits
pub(crate) fn case(rt: &impl Print, label: &[u8], a: &Numbers) -> io::Result<()> {
    let mut five = [a[3], a[4], a[5], a[6], a[7]].map(parts::byte);
    let len = usize::from(a[2]);
    let limits = parts::front_mut(&mut five, len);
    link(rt, label, limits)?;
    order_again(rt, label, limits)?;
    set_limit(rt, label, limits, parts::front(&a[3..], len))?;
    place(rt, label, limits)?;
    place_recursive(rt, label, limits)?;
    read(rt, label, limits)?;
    why_alone(rt, label, limits)
}

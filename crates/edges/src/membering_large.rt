// Members of long leader lists: the first 1,024 entries count, or all where there are fewer. 1,100 places, each a 9, to lend from.
use crate::parts::{self, LARGE, Numbers};
use crate::{lines, membering};
use planner::members;
use refusal::code;
use std::io;

// Writes x at each of the places.
fn put_each(list: &mut [u16], x: u16, places: &[u16]) {
    for place in places {
        lists::put(list, *place, x);
    }
}

// Whether all that stands behind the part is as it came.
fn behind(rt: &impl Print, out: &[u16], count: usize) -> io::Result<()> {
    print!(rt; " | behind it")?;
    lines::kept(rt, out.iter().skip(count).all(|x| *x == 9))
}

fn show(
    rt: &impl Print,
    label: &[u8],
    leaders: &[u16],
    leader: u16,
    room: usize,
) -> io::Result<()> {
    let mut out = [9u16; LARGE];
    lines::refusal(
        rt,
        label,
        code(members::members_refusal(leaders, leader, room)),
    )?;
    let count = membering::show(rt, leaders, leader, parts::front_mut(&mut out, room))?;
    behind(rt, &out, count)
}

// the list's length, the leader, the room, how many entries are the leader's number, and their places; any other entry is 65535
pub(crate) fn case(rt: &impl Print, label: &[u8], a: &Numbers) -> io::Result<()> {
    let mut leaders = [lists::NONE; LARGE];
    put_each(&mut leaders, a[3], parts::front(&a[6..], usize::from(a[5])));
    show(
        rt,
        label,
        parts::front(&leaders, usize::from(a[2])),
        a[3],
        usize::from(a[4]),
    )
}

// the room; each of 1,100 entries is 0. Shown are the part's length and the four places where the part ends.
pub(crate) fn most(rt: &impl Print, label: &[u8], a: &Numbers) -> io::Result<()> {
    let leaders = [0u16; LARGE];
    let mut out = [9u16; LARGE];
    let room = usize::from(a[2]);
    lines::refusal(rt, label, code(members::members_refusal(&leaders, 0, room)))?;
    let count = members::members(&leaders, 0, parts::front_mut(&mut out, room)).len();
    print!(rt; " | members {count}")?;
    lines::list(rt, &out[1021..1025])?;
    behind(rt, &out, count)
}

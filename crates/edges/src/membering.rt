// Members: its refusals, the part handed back, and the lent list after it. The leader list of 01's listing.
// No contract can speak of the lent list behind the part, so every entry is shown, and four that no case lends.
use crate::parts::Numbers;
use crate::{lines, parts};
use planner::members;
use refusal::code;
use std::io;

// Prints the part and returns its length.
pub(crate) fn show(
    rt: &impl Print,
    leaders: &[u16],
    leader: u16,
    out: &mut [u16],
) -> io::Result<usize> {
    let part = members::members(leaders, leader, out);
    lines::list(rt, part)?;
    Ok(part.len())
}

// the leader and the room
pub(crate) fn case(rt: &impl Print, label: &[u8], a: &Numbers) -> io::Result<()> {
    let leaders = [0u16, 2, 2, 0, 0];
    let came = [9u16; 16];
    let mut out = came;
    let room = usize::from(a[3]);
    lines::refusal(
        rt,
        label,
        code(members::members_refusal(&leaders, a[2], room)),
    )?;
    show(rt, &leaders, a[2], parts::front_mut(&mut out, room))?;
    lines::after(rt, &out, &came)
}

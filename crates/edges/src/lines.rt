// Prints what a call gave.
use planner::{Answer, PlaceAnswer, Small};
use std::fmt::Display;
use std::io;

pub(crate) fn small(rt: &impl Print, s: Small) -> io::Result<()> {
    print!(rt; " {} {} {} {}", s.n, s.t, s.m, s.k)
}

// A label is bytes, as the script has it.
pub(crate) fn refusal(rt: &impl Print, label: &[u8], e: u32) -> io::Result<()> {
    rt.write_all(label)?;
    print!(rt; ": {e}")
}

pub(crate) fn answer(rt: &impl Print, label: &[u8], a: Answer) -> io::Result<()> {
    refusal(rt, label, a.refusal)?;
    print!(rt; " |")?;
    small(rt, a.small)
}

// The same of a placing, with the number moved.
pub(crate) fn placed(rt: &impl Print, label: &[u8], a: PlaceAnswer) -> io::Result<()> {
    let PlaceAnswer {
        refusal,
        small,
        moved,
    } = a;
    answer(rt, label, Answer { refusal, small })?;
    print!(rt; " | moved {moved}")
}

pub(crate) fn list<T: Display>(rt: &impl Print, l: &[T]) -> io::Result<()> {
    print!(rt; " |")?;
    for x in l {
        print!(rt; " {x}")?;
    }
    Ok(())
}

pub(crate) fn kept(rt: &impl Print, same: bool) -> io::Result<()> {
    println!(rt; " | {}", if same { "kept" } else { "changed" })
}

// A list after a call, and whether it is as it came.
pub(crate) fn after<T: Display + PartialEq>(
    rt: &impl Print,
    l: &[T],
    came: &[T],
) -> io::Result<()> {
    list(rt, l)?;
    kept(rt, l == came)
}

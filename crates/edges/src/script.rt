// The script of cases: gone through line by line, its numbers read, each call made.
ghost use Rattle.std.specs.Prelude.{◌-◌, ◌≤◌, length};

use crate::parts::Numbers;
use crate::{
    asking, each_call, full, limiting, linking, membering, membering_large, opening, ordering,
    placing, reading, soundness, star,
};
use planner::Way;
use std::io;

// x with one more decimal digit; the byte of the digit 0 is 48, a multiple of 16.
// By hand, since a number may run over 65535 and then counts by its remainder, and what is no digit counts too: parse would give an error for both.
fn with_digit(x: u16, b: u8) -> u16 {
    x.wrapping_mul(10).wrapping_add(u16::from(b % 16))
}

// The numbers of a text, a space before each. What stands before the first space goes into the first entry.
fn read(text: &[u8]) -> Numbers {
    let mut numbers = [0u16; 26];
    for (number, word) in numbers.iter_mut().zip(text.split(|b| *b == b' ')) {
        for b in word {
            *number = with_digit(*number, *b);
        }
    }
    numbers
}

// The first entry is of no use. The second says what is called, and the call's own numbers follow. The largest plant has labels of its own.
// The script names calls by number, and this table is the one place where they are told apart: an enum of them would be a second table of the same.
fn call(rt: &impl Print, label: &[u8], a: &Numbers) -> io::Result<()> {
    match a[1] {
        1 => opening::case(rt, label, a),
        2 => opening::large(rt, label, a),
        3 => linking::case(rt, label, a),
        4 => ordering::case(rt, label, a),
        5 => placing::case(rt, label, Way::Queued, a),
        6 => placing::steps(rt, label, Way::Queued, Way::Queued, a),
        7 => reading::case(rt, label, a),
        8 => membering::case(rt, label, a),
        9 => soundness::case(rt, label, a),
        10 => soundness::large(rt, label, a[2], 0),
        11 => soundness::large(rt, label, 4, a[2]),
        12 => membering_large::case(rt, label, a),
        13 => membering_large::most(rt, label, a),
        15 => reading::steps(rt, label, a),
        16 => asking::case(rt, label, a),
        17 => asking::steps(rt, label, a),
        18 => placing::case(rt, label, Way::Recursive, a),
        19 => placing::steps(rt, label, Way::Recursive, Way::Recursive, a),
        20 => placing::steps(rt, label, Way::Queued, Way::Recursive, a),
        21 => placing::steps(rt, label, Way::Recursive, Way::Queued, a),
        22 => limiting::case(rt, label, a),
        23 => each_call::case(rt, label, a),
        24 => star::placings(rt, label, Way::Queued, a),
        25 => star::placings(rt, label, Way::Recursive, a),
        26 => star::reads(rt, label, a),
        27 => star::asks(rt, label, a),
        _ => full::run(rt),
    }
}

// What stands before the first stop, and what stands behind it: nothing, where there is none.
fn cut(list: &[u8], stop: u8) -> (&[u8], &[u8])
    ensures { length result.1.now ≤ length list.now - 1 }
{
    match list.iter().position(|b| *b == stop) {
        Some(i) => (&list[..i], &list[i + 1..]),
        None => (list, &[]),
    }
}

// Each case is a label up to a bar, and its numbers up to the end of the line; a label may hold line feeds, so the file is not split by them first.
pub(crate) fn run(rt: &impl Print, file: &[u8]) -> io::Result<()> {
    let mut rest = file;
    while !rest.is_empty() {
        let (label, after) = cut(rest, b'|');
        let (text, next) = cut(after, b'\n');
        call(rt, label, &read(text))?;
        rest = next;
    }
    Ok(())
}

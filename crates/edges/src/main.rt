// The cases at the edges (01, "At the edges") that are not proved as a table, and an example of each refusal and of each clause of soundness.
// They stand in the file stdin, a line a case: a label, a bar, a number that says what is called, and the call's own numbers (script.rt, and the comment before each case).
// Each line printed: the label, the refusal number, the small part as n T m k, and the lists after the call; `kept` says whether they are as they came.
#![tactic(auto)]

mod asking;
mod each_call;
mod full;
mod limiting;
mod lines;
mod linking;
mod membering;
mod membering_large;
mod opening;
mod ordering;
mod parts;
mod placing;
mod reading;
mod record;
mod script;
mod soundness;
mod star;

use std::io;

fn main(rt: HostRuntime) -> io::Result<()> {
    // Room for a script half as long again.
    let mut file = [0u8; 16384];
    let count = input::read_full(&mut rt.reader(), &mut file);
    script::run(&rt, &file[..count])
}

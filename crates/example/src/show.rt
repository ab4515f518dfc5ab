// Prints what the planner gave.
use std::io;

pub(crate) fn refusal(rt: &impl Print, call: &str, refusal: u32) -> io::Result<()> {
    println!(rt; "{call}: refused {refusal}")
}

// A line a gateway.
pub(crate) fn leaders(rt: &impl Print, list: &[u16]) -> io::Result<()> {
    for (v, leader) in list.iter().enumerate() {
        println!(rt; "gateway {v}: leader {leader}")?;
    }
    Ok(())
}

pub(crate) fn members(rt: &impl Print, leader: u16, list: &[u16]) -> io::Result<()> {
    print!(rt; "members of {leader}:")?;
    for v in list {
        print!(rt; " {v}")?;
    }
    println!(rt;)
}

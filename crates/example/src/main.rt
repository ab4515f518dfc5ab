// How a program uses the planner: the plant of 01's listing with a limit of its own for one gateway, from open to members.
#![tactic(auto)]

mod plant;
mod show;

use planner::members;
use plant::Plant;
use std::io;

// Also before the first placing: the order, and a limit of its own for a gateway.
fn prepare(rt: &impl Print, plant: &mut Plant) -> io::Result<()> {
    plant.order(&[2, 3, 4, 0, 1]);
    // Gateway 0 may lead and hold 3.
    plant.set_limit(0, 3);
    // A refused call says why and changes nothing. 30: there is no such gateway. An accepted call says 0.
    show::refusal(rt, "a limit for gateway 5", plant.set_limit(5, 3))
}

// One call for each gateway, and one too many.
fn place_all(rt: &impl Print, plant: &mut Plant) -> io::Result<()> {
    for _ in 0..plant.small.n {
        plant.place();
    }
    // 24: all are placed.
    show::refusal(rt, "one more placing", plant.place())
}

// read writes each gateway's leader, and a byte for each that says whether it is in the choke set.
fn show_groups(rt: &impl Print, plant: &Plant) -> io::Result<()> {
    let mut leaders = [0u16; 5];
    let mut choke = [0u8; 5];
    plant.read(&mut leaders, &mut choke);
    show::leaders(rt, &leaders)?;
    // The members come back as the front part of the room lent for them.
    let mut room = [0u16; 5];
    show::members(rt, 0, members::members(&leaders, 0, &mut room))
}

fn main(rt: HostRuntime) -> io::Result<()> {
    // 5 gateways; a leader has at most 2 members where no limit of its own is set.
    let mut plant = Plant::open(5, 2);
    plant.link(0, 2);
    plant.link(0, 3);
    plant.link(0, 4);
    plant.link(1, 2);
    prepare(&rt, &mut plant)?;
    place_all(&rt, &mut plant)?;
    show_groups(&rt, &plant)
}

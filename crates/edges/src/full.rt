// The largest plant: 1,024 gateways, 8,192 links, each made by a call of link, placed to the end and read.
use crate::lines;
use crate::parts::{LARGE, LARGE_LINKS};
use planner::{Answer, PlaceAnswer, Small};
use std::io;

// The small part and the lists that are lent to each call.
#[derive(Drop)]
struct Plant {
    small: Small,
    links: [u16; LARGE_LINKS],
    order: [u16; LARGE],
    holders: [u16; LARGE],
    limits: [u8; LARGE],
}

impl Plant {
    fn open(&mut self) {
        let opened = Small::open(
            lists::GATEWAYS,
            lists::LOWEST,
            &self.links,
            &mut self.order,
            &mut self.holders,
            &mut self.limits,
        );
        self.small = opened.small;
    }

    fn link(&mut self, a: u16, b: u16) -> Answer {
        let answer = self.small.link(
            &mut self.links,
            &self.order,
            &self.holders,
            &self.limits,
            a,
            b,
        );
        self.small = answer.small;
        answer
    }

    fn place(&mut self) -> PlaceAnswer {
        let answer = self
            .small
            .place(&self.links, &self.order, &mut self.holders, &self.limits);
        self.small = answer.small;
        answer
    }

    // 8,192 links: each gateway to the eight after it.
    fn fill(&mut self) {
        for i in 0..lists::LINKS {
            let a = i % lists::GATEWAYS;
            let b = (a + i / lists::GATEWAYS + 1) % lists::GATEWAYS;
            self.link(a, b);
        }
    }

    fn one_more_link(&mut self, rt: &impl Print) -> io::Result<()> {
        print!(rt; "8192 links:")?;
        lines::small(rt, self.small)?;
        lines::list(rt, &self.links[16382..16386])?;
        lines::answer(rt, b"\none more link", self.link(0, 512))?;
        lines::list(rt, &self.links[16382..16386])?;
        println!(rt;)
    }

    fn one_more_placing(&mut self, rt: &impl Print) -> io::Result<()> {
        print!(rt; "1024 placed:")?;
        lines::small(rt, self.small)?;
        lines::placed(rt, b"\none more placing", self.place())?;
        println!(rt;)
    }

    fn show_read(&self, rt: &impl Print) -> io::Result<()> {
        let mut leaders = [lists::NONE; LARGE];
        let mut choke = [9u8; lists::PLACES];
        let r = self.small.read(
            &self.links,
            &self.order,
            &self.holders,
            &self.limits,
            &mut leaders,
            &mut choke,
        );
        lines::answer(rt, b"read", r)?;
        // All but those alone.
        let covered = leaders
            .iter()
            .take(lists::PLACES)
            .filter(|u| **u != lists::NONE)
            .count();
        print!(rt; " | covered {covered}")?;
        lines::list(rt, &leaders[1022..1026])?;
        println!(rt;)
    }
}

pub(crate) fn run(rt: &impl Print) -> io::Result<()> {
    // Made where it stays: a record that open returned would stand twice on the stack.
    let mut plant = Plant {
        small: Small {
            n: 0,
            t: lists::LOWEST,
            m: 0,
            k: 0,
        },
        links: [9u16; LARGE_LINKS],
        order: [9u16; LARGE],
        holders: [9u16; LARGE],
        limits: [9u8; LARGE],
    };
    plant.open();
    plant.fill();
    plant.one_more_link(rt)?;
    for _ in 0..lists::GATEWAYS {
        plant.place();
    }
    plant.one_more_placing(rt)?;
    plant.show_read(rt)
}

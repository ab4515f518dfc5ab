// Rules 3 and 4: who leads on the cycles, and with whom the first of an odd cycle goes. Each cycle is gone round twice: from the lowest number on it to find where its reading starts, and from there to find who leads.
ghost use Rattle.std.specs.Prelude.{◌≡◌, false, cond, ◌+◌, ◌<◌};
ghost use Rattle.stars.specs.Pre.{Broken, Led, Read, Reading, Rounded, SameRounds, Treed, Unmet, marked};

use lists::fill::with_value;
use lists::marks::{is_marked, mark_if};
use lists::{NONE, PLACES, entry, put};

// A cycle: the gateway on it at which its reading starts, and how many arcs it has.
#[derive(Clone, Copy, Debug, PartialEq, Eq)]
struct Round {
    start: u16,
    arcs: u16,
}

// The lists of the pass: who is read, who leads, and with whom each goes.
#[derive(Drop)]
struct Rounds<'a> {
    n: u16,
    holders: &'a [u16],
    read: &'a mut [u16],
    leading: &'a mut [u16],
    nexts: &'a mut [u16],
}

impl Rounds<'_> {
    // Goes round v's cycle and marks it. Its reading starts at one that leads or, where none does, at v.
    fn go_round(&mut self, v: u16) -> Round
        requires { Unmet self.old v }
        ensures { Rounded self.old self.new v result }
    {
        let read = &mut *self.read;
        let leading = &mut *self.leading;
        let mut start = v;
        let mut arcs: u16 = 0;
        let mut u = v;
        // along the cycle until it comes round: no index is counted
        while !is_marked(read, u) {
            put(read, u, 1);
            if is_marked(leading, u) {
                start = u;
            }
            u = entry(self.holders, u);
            arcs += 1;
        }
        Round { start, arcs }
    }

    // Goes round the cycle from its start, the arc into which is cut: each other on it that does not lead is led by its holder. Returns the next after the start.
    fn lead_round(&mut self, round: Round) -> u16
        requires { Broken self.old round }
        ensures { Led self.old self.new round.start result }
    {
        let leading = &mut *self.leading;
        let mut last = round.start;
        let mut u = round.start;
        for _ in 0..round.arcs {
            let free = u == round.start || is_marked(leading, u);
            last = u;
            u = entry(self.holders, u);
            mark_if(!free, leading, u);
        }
        last
    }

    // Reads v's cycle, of which v is the lowest number.
    fn read_cycle(&mut self, v: u16)
        requires { (Reading self.old v) × (v < self.old.n) × (marked self.old.read.now v ≡ false) }
        ensures reading { Reading self.new (v + 1) }
        ensures same { SameRounds self.old self.new }
    {
        let round = self.go_round(v);
        let next = self.lead_round(round);
        put(self.nexts, round.start, next);
    }
}

// Reads the cycles in turn, by marks of those in trees and of those who lead by rule 1: marks who leads by rules 1 to 4. Writes to nexts with whom each goes that does not lead and whose arc is cut; 65535 for the others that do not lead.
pub(crate) fn read_cycles(
    n: u16,
    holders: &[u16],
    read: &mut [u16],
    leading: &mut [u16],
    nexts: &mut [u16; PLACES],
)
    requires { Treed n holders.now read.old leading.old }
    ensures { Read n holders.now leading.new nexts.new }
{
    with_value(n as usize, NONE, nexts);
    let mut lists = Rounds {
        n,
        holders,
        read,
        leading,
        nexts,
    };
    for v in 0..n {
        let read = &mut *lists.read;
        if !is_marked(read, v) {
            lists.read_cycle(v);
        }
    }
}

// Rule 1 from the deepest upwards, in one pass: a gateway is taken once all that it holds are taken. Who is never taken stands on a cycle.
ghost use Rattle.std.specs.Prelude.{◌≡◌};
ghost use Rattle.stars.specs.Pre.{AllTaken, Cleared, Taken, Treed, Waited, Waiting, is_next};

use lists::counts::tally_into;
use lists::fill::with_value;
use lists::marks::{is_marked, mark_if};
use lists::{entry, put};

// The lists of the pass: for how many each still waits, who is taken, and who leads.
#[derive(Drop)]
struct Trees<'a> {
    n: u16,
    holders: &'a [u16],
    waits: &'a mut [u16],
    taken: &'a mut [u16],
    leading: &'a mut [u16],
}

impl Trees<'_> {
    // Whether u may be taken: it is a gateway, waits for none that it holds, and is not taken yet.
    #[tactic(auto, unfolding(crate::specs::Pre::is_next))]
    fn is_next(&self, u: u16) -> bool
        ensures { result ≡ is_next self.now u }
    {
        u < self.n && entry(self.waits, u) == 0 && !is_marked(self.taken, u)
    }

    // Takes u: its holder waits for one fewer, and leads if u does not. Returns the holder.
    fn take(&mut self, u: u16) -> u16
        requires { Waited self.old u }
        ensures { Taken u self.old self.new result }
    {
        put(self.taken, u, 1);
        let h = entry(self.holders, u);
        if h < self.n {
            let waits = &mut *self.waits;
            let k = entry(waits, h);
            put(waits, h, k - 1);
            let leading = &mut *self.leading;
            mark_if(!is_marked(leading, u), leading, h);
        }
        h
    }

    // Takes all that can be taken, each as soon as it can: from v on in turn, and from one that is taken on to its holder.
    fn peel(&mut self)
        requires { Waiting self.old }
        ensures { AllTaken self.old self.new }
    {
        let mut v: u16 = 0;
        let mut u: u16 = 0;
        // goes on from one taken to its holder, so that v stays in some turns
        while v < self.n {
            if self.is_next(u) {
                u = self.take(u);
            } else {
                v += 1;
                u = v;
            }
        }
    }
}

// Marks who hangs in a tree, and who leads by rule 1.
pub(crate) fn lead_trees(
    n: u16,
    holders: &[u16],
    waits: &mut [u16],
    trees: &mut [u16],
    leading: &mut [u16],
)
    requires { Cleared n waits.old trees.old leading.old }
    ensures { Treed n holders.now trees.new leading.new }
{
    with_value(n as usize, 0, trees);
    tally_into(n, holders, waits);
    let mut lists = Trees {
        n,
        holders,
        waits,
        taken: trees,
        leading,
    };
    lists.peel();
}

// The leader list of a set of holders (01, "Reading", rules 1 to 5; rule 5 by 02, change 2), on plain lists and numbers.
// That n is at most 1,024 stands in five contracts. A struct of n and that fact would be no plainer: it is one line where it is asked for.
#![tactic(auto)]

mod groups_of_two;
mod partners;
mod places;
mod reading;
mod rounds;
mod trees;

ghost use Rattle.std.specs.Prelude.{◌≡◌, ◌≤◌, length};
ghost use Rattle.packing.specs.Lists.{list_of};
ghost use Rattle.packing.specs.Plant.{GATEWAYS};
ghost use Rattle.stars.specs.Stars.{leader_of, leader_list, leaders_fit, leaders_written};
ghost use Rattle.stars.specs.Pre.{Cleared};

// Each gateway's leader by rules 1 to 4: first in the trees, then on the cycles. Lists serve twice, so that few are cleared: groups first marks who hangs in a tree, and waits later says with whom the first of a cycle goes. So no one struct could name them for all three steps.
fn write_groups(
    n: u16,
    holders: &[u16],
    waits: &mut [u16; lists::PLACES],
    leading: &mut [u16],
    groups: &mut [u16],
)
    requires { Cleared n waits.old groups.old leading.old }
    ensures { groups.new ≡ list_of n (leader_of n holders.now) }
{
    trees::lead_trees(n, holders, waits, groups, leading);
    rounds::read_cycles(n, holders, groups, leading, waits);
    reading::leaders_of(n, holders, waits, leading, groups);
}

// The groups by rules 1 to 4, then rule 5 by the order. The two lists to work in serve both.
fn write_leaders(n: u16, order: &[u16], holders: &[u16], out: &mut [u16])
    requires { (n ≤ GATEWAYS) × (n ≡ length out.old) }
    ensures { out.new ≡ list_of n (leader_list n order.now holders.now) }
{
    let mut first = [0u16; lists::PLACES];
    let mut second = [0u16; lists::PLACES];
    write_groups(n, holders, &mut first, &mut second, out);
    groups_of_two::turn_pairs(n, order, &mut first, &mut second, out);
}

// Whether n is in range and each list, by its length, has n entries.
#[tactic(auto, unfolding(crate::specs::Stars::leaders_fit))]
fn is_lent(n: u16, order: usize, holders: usize, out: usize) -> bool
    ensures { result ≡ leaders_fit n order holders out }
{
    n as usize <= order && sound::is_fitting(n, holders, out)
}

// A bool: there is no value to hand back, and the definition is the test (`leaders_fit`).
// Writes the leader list to the first n places of out, and answers whether n and the lengths fit; if not, nothing is changed.
// order may be any list of n entries or more: the place of a number is where it first stands among the first n, and who stands nowhere is later than all who do.
// The equation shuts out, for one, the holders passed on as leaders, since a chain of holders is no star; and a pair led by the lower number, where the higher stands earlier in the order.
pub fn leaders(n: u16, order: &[u16], holders: &[u16], out: &mut [u16]) -> bool
    ensures done { result ≡ leaders_fit n (length order.now) (length holders.now) (length out.old) }
    ensures out { out.new ≡ leaders_written n order.now holders.now out.old }
{
    if !is_lent(n, order.len(), holders.len(), out.len()) {
        return false;
    }
    let end = n as usize;
    write_leaders(n, order, holders, &mut out[..end]);
    true
}

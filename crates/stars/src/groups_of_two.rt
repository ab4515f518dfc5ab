// Rule 5, over any grouping and any order: who leads a group of two.
ghost use Rattle.std.specs.Prelude.{◌≡◌, ◌≤◌, length};
ghost use Rattle.packing.specs.Plant.{GATEWAYS, at};
ghost use Rattle.packing.specs.Lists.{list_of};
ghost use Rattle.stars.specs.Stars.{not_later, pair_leader, place_of, rule_five};
ghost use Rattle.stars.specs.Pre.{Partners, turned};

use crate::partners::partners_of;
use crate::places::places_of;
use lists::{PLACES, entry};

// What is known of the pairs: the place of each gateway in the order, and of each leader its one member.
#[derive(Clone, Copy)]
struct Pairs<'a> {
    n: u16,
    places: &'a [u16],
    partners: &'a [u16],
}

impl Pairs<'_> {
    // Of the pair a and b, whether a leads: b's place is not before a's.
    fn leads_pair(&self, a: u16, b: u16) -> bool
        ensures { result ≡ not_later (at self.now.places.now) a b }
    {
        entry(self.places, a) <= entry(self.places, b)
    }

    #[tactic(auto, unfolding(crate::specs::Stars::pair_leader))]
    fn pair_leader(&self, a: u16, b: u16) -> u16
        ensures { result ≡ pair_leader (not_later (at self.now.places.now)) a b }
    {
        if self.leads_pair(a, b) { a } else { b }
    }

    // The entry that was u, once in a group of two the one that leads the pair leads.
    fn rule_five(&self, u: u16) -> u16
        ensures { result ≡ turned self.now u }
    {
        if self.n <= u {
            return u;
        }
        let w = entry(self.partners, u);
        if self.n <= w {
            return u;
        }
        self.pair_leader(u, w)
    }

    // Each entry of the groups, in place: what it becomes goes by no other entry.
    fn turn_entries(&self, groups: &mut [u16])
        requires { (self.now.n ≤ GATEWAYS) × (Partners self.now.n self.now.n (at groups.old) self.now.partners.now) × (self.now.n ≡ length groups.old) }
        ensures { groups.new ≡ list_of self.now.n (rule_five (not_later (at self.now.places.now)) self.now.n (at groups.old)) }
    {
        for v in 0..self.n {
            let place = v as usize;
            groups[place] = self.rule_five(groups[place]);
        }
    }
}

// .. by the places in the order. What the lists lent for places and partners held before does not matter.
pub(crate) fn turn_pairs(
    n: u16,
    order: &[u16],
    places: &mut [u16; PLACES],
    partners: &mut [u16; PLACES],
    groups: &mut [u16],
)
    requires { (n ≤ GATEWAYS) × (n ≡ length groups.old) }
    ensures { groups.new ≡ list_of n (rule_five (not_later (place_of n (at order.now))) n (at groups.old)) }
{
    places_of(n, order, places);
    partners_of(n, groups, partners);
    let pairs = Pairs {
        n,
        places,
        partners,
    };
    pairs.turn_entries(groups);
}

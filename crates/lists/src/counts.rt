// Counts over the first n entries of a list.
ghost use Rattle.std.specs.Prelude.{◌≡◌, ◌<◌, ℕ, Bool, eqb, replicate};
ghost use Rattle.packing.specs.Count.{count};
ghost use Rattle.packing.specs.Lists.{tally_of};
ghost use Rattle.packing.specs.Plant.{GATEWAYS, at};
ghost use Rattle.packing.specs.Grouping.{member_count};

use crate::tests::is_member;
use crate::{PLACES, entry, put};

// How many numbers below n pass a test. A loop: filter and count took a third more time.
pub fn count_where<F: Fn(u16) -> bool>(n: u16, test: F) -> u16
    requires { F.IsAlwaysCallable test }
    ensures { (p : ℕ → Bool) → ((v : ℕ) (b : Bool) → v < n → F.post test v b → b ≡ p v) → result ≡ count n p }
{
    let mut k: u16 = 0;
    for v in 0..n {
        k += u16::from(test(v));
    }
    k
}

// How many entries are x: by holders, how many x holds.
pub fn count_of(n: u16, list: &[u16], x: u16) -> u16
    ensures { result ≡ count n (λ v. eqb (at list.now v) x) }
{
    count_where(n, |v| entry(list, v) == x)
}

// How often each number below 1,024 stands among them, counted in a list of zeros.
pub fn tally_into(n: u16, list: &[u16], counts: &mut [u16])
    requires { counts.old ≡ replicate GATEWAYS 0 }
    ensures { counts.new ≡ tally_of n list.now }
{
    for i in 0..n {
        let x = entry(list, i);
        let k = entry(counts, x);
        put(counts, x, k + 1);
    }
}

// .. in a list of its own.
pub fn tally(n: u16, list: &[u16]) -> [u16; PLACES]
    ensures { result ≡ tally_of n list.now }
{
    let mut counts = [0u16; PLACES];
    tally_into(n, list, &mut counts);
    counts
}

// How many others than u have u's number as their entry.
#[tactic(auto, unfolding(packing::specs::Grouping::member_count))]
pub fn member_count(n: u16, list: &[u16], u: u16) -> u16
    ensures { result ≡ member_count n (at list.now) u }
{
    count_where(n, |w| is_member(list, u, w))
}

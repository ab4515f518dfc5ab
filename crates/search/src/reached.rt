// Who the choke set's walk reaches when it starts from one gateway only (02, change 5), on plain lists and numbers.
ghost use Rattle.std.specs.Prelude.{◌≡◌, length};
ghost use Rattle.packing.specs.Lists.{list_where, written, Lent};
ghost use Rattle.search.specs.Search.{seen};
ghost use Rattle.search.specs.Reached.{queued_from, seen_from, set_written, reachable, both_counted, reached_answer, queued_written, seen_written};
ghost use Rattle.search.specs.ReachedPre.{Unmarked, Marked, joined, Sets};

use crate::held::{empty_rows, gather};
use crate::plant::{Links, Plant};
use crate::walk::walk;
use crate::work::Work;
use lists::listed::write_them;

/// How many gateways each of the two sets has.
#[derive(Clone, Copy, Debug, PartialEq, Eq)]
pub struct Reached {
    pub queued: u16,
    pub seen: u16,
}

// Marks all that the walk from v sees.
fn walk_from(links: &Links, v: u16, holders: &[u16], from: &mut [u16])
    requires { Unmarked links.now.n holders.now v from.old }
    ensures { Marked links.now.n links.now.ends.now holders.now v from.new }
{
    let mut rows = empty_rows();
    gather(links.n, holders, &mut rows);
    let mut queue = [0u16; lists::PLACES];
    queue[0] = v;
    let limits = [0u8; lists::PLACES];
    let mut looked = [0u16; lists::PLACES];
    let plant = Plant {
        links: *links,
        limits: &limits,
    };
    let mut work = Work {
        queue: &mut queue,
        tail: 1,
        from,
        looked: &mut looked,
        count: 0,
    };
    walk(&plant, &rows, &mut work);
}

// Whether u is marked.
fn is_seen(from: &[u16], u: u16) -> bool
    ensures { result ≡ seen from.now u }
{
    lists::entry(from, u) != lists::NONE
}

// Whether x joined the queue: what those seen hold did, and v.
#[tactic(auto, unfolding(crate::specs::ReachedPre::joined))]
fn is_joined(n: u16, v: u16, holders: &[u16], from: &[u16], x: u16) -> bool
    ensures { result ≡ joined n holders.now v from.now x }
{
    let u = lists::entry(holders, x);
    x == v || u < n && is_seen(from, u)
}

// Writes both sets with marks of nobody to work in.
// The two sets stand apart: of a struct that lends both the clauses would have to say besides that no other lists are put into it.
fn write_sets(
    links: &Links,
    v: u16,
    holders: &[u16],
    from: &mut [u16],
    queued: &mut [u16],
    seen: &mut [u16],
) -> Reached
    requires { Sets links.now.n holders.now v from.old queued.old seen.old }
    ensures answer { result ≡ both_counted links.now.n links.now.ends.now holders.now v }
    ensures queued { queued.new ≡ set_written links.now.n (queued_from links.now.n links.now.ends.now holders.now v) queued.old }
    ensures seen { seen.new ≡ set_written links.now.n (seen_from links.now.n links.now.ends.now holders.now v) seen.old }
{
    let n = links.n;
    walk_from(links, v, holders, from);
    let first = write_them(n, |x| is_joined(n, v, holders, from, x), queued);
    let second = write_them(n, |u| is_seen(from, u), seen);
    Reached {
        queued: first,
        seen: second,
    }
}

// Whether the sets may be written to lists with room for so many.
#[tactic(auto, unfolding(crate::specs::Reached::reachable))]
fn is_reachable(n: u16, v: u16, holders: &[u16], room: usize, room2: usize) -> bool
    ensures { result ≡ reachable n holders.now v room room2 }
{
    crate::is_placeable(n, v, holders) && (n as usize) <= room && (n as usize) <= room2
}

// Writes all that joins the queue, and all that is seen, in the walk from v. Answers their numbers; or None where they may not be written, and nothing is changed.
pub fn reached_from(
    links: &Links,
    v: u16,
    holders: &[u16],
    queued: &mut [u16],
    seen: &mut [u16],
) -> Option<Reached>
    ensures answer { result ≡ reached_answer links.now.n links.now.ends.now holders.now v (length queued.old) (length seen.old) }
    ensures queued { queued.new ≡ queued_written links.now.n links.now.ends.now holders.now v queued.old seen.old }
    ensures seen { seen.new ≡ seen_written links.now.n links.now.ends.now holders.now v queued.old seen.old }
{
    if !is_reachable(links.n, v, holders, queued.len(), seen.len()) {
        return None;
    }
    let mut from = [lists::NONE; lists::PLACES];
    let end = links.n as usize;
    Some(write_sets(links, v, holders, &mut from[..end], queued, seen))
}

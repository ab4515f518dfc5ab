// The choke set (01, "Reading"), on plain lists and numbers.
ghost use Rattle.std.specs.Prelude.{◌≡◌, length};
ghost use Rattle.packing.specs.Lists.{list_of, written};
ghost use Rattle.search.specs.ChokeSet.{choke_byte, chokeable, choke_written};
ghost use Rattle.search.specs.ChokePre.{Workable};

use crate::bytes::write_seen;
use crate::held::{Row, empty_rows, gather};
use crate::plant::{Links, Plant};
use crate::start::queue_unheld;
use crate::walk::walk;
use crate::work::Work;

// The lists to work in stand apart: a Work is made of them here.
// Writes the choke bytes with the rows of the holders, and a queue and marks of nobody to work in.
pub fn write_set(
    links: &Links,
    rows: &[Row],
    holders: &[u16],
    queue: &mut [u16],
    from: &mut [u16],
    out: &mut [u8],
)
    requires { Workable links.now.n rows.now holders.now queue.old from.old out.old }
    ensures { out.new ≡ written links.now.n (list_of links.now.n (choke_byte links.now.n links.now.ends.now holders.now)) out.old }
{
    let tail = queue_unheld(links.n, holders, queue);
    let limits = [0u8; lists::PLACES];
    let mut looked = [0u16; lists::PLACES];
    let plant = Plant {
        links: *links,
        limits: &limits,
    };
    let mut work = Work {
        queue,
        tail,
        from,
        looked: &mut looked,
        count: 0,
    };
    walk(&plant, rows, &mut work);
    let Work { from, .. } = work;
    write_seen(from, out);
}

// Whether the choke bytes may be written to a list with room for so many.
#[tactic(auto, unfolding(crate::specs::ChokeSet::chokeable))]
fn is_chokeable(n: u16, holders: &[u16], room: usize) -> bool
    ensures { result ≡ chokeable n holders.now room }
{
    sound::held::is_searchable(n, holders) && (n as usize) <= room
}

// Writes the choke bytes to the first n places of out, and answers whether they may be written; if not, nothing is changed. A bool: there is no value to hand back, and the definition is the test (`chokeable`).
// The equation shuts out, for one, the set seen from the first gateway without holder alone; and a walk that stops at a gateway with a place free.
pub fn choke_set(links: &Links, holders: &[u16], out: &mut [u8]) -> bool
    ensures done { result ≡ chokeable links.now.n holders.now (length out.old) }
    ensures out { out.new ≡ choke_written links.now.n links.now.ends.now holders.now out.old }
{
    let n = links.n;
    if !is_chokeable(n, holders, out.len()) {
        return false;
    }
    let mut rows = empty_rows();
    gather(n, holders, &mut rows);
    let mut queue = [0u16; lists::PLACES];
    let mut from = [lists::NONE; lists::PLACES];
    let end = n as usize;
    write_set(links, &rows, holders, &mut queue, &mut from[..end], out);
    true
}

// The record that a file's calls make, without the calls, and what a read of it writes. The file is accepted, and its lists and the index of its links are at hand.
ghost use Rattle.std.specs.Prelude.{◌≡◌};
ghost use Rattle.packing.specs.Lists.{list_of, written};
ghost use Rattle.search.specs.ChokeSet.{choke_byte};
ghost use Rattle.search.specs.ChokePre.{Workable};
ghost use Rattle.search.specs.RowPre.{RowsOf};
ghost use Rattle.planner.specs.Calls.{read_leaders, read_choke};
ghost use Rattle.plant_file.specs.PlantFile.{file_n, file_links};
ghost use Rattle.plan.specs.Plan.{state_by, file_moves_by};
ghost use Rattle.plan.specs.Pre.{NobodyIn, Making, DeadChoke, Choking, Readable};
ghost use Rattle.plan.specs.Work.{AsLong};

use crate::loaded::LoadedFile;
use crate::placings::place_all;
use crate::wanted::Wanted;
use crate::work::Work;
use lists::PLACES;
use planner::Way;
use search::held::{FEW, Held, Row, empty_rows};
use search::plant::Links;

// The holders after so many placings, their rows, and marks that are the choke set where all are placed by 01's search. Returns how many gateways the placings move.
pub(crate) fn make(loaded: &LoadedFile, wanted: Wanted, work: &mut Work) -> u32
    requires { Making loaded.now.file.now wanted.placings work.old }
    ensures holders { work.new.held.holders.now ≡ (state_by wanted.way loaded.now.file.now wanted.placings).holders }
    ensures rows { RowsOf (file_n loaded.now.file.now) (state_by wanted.way loaded.now.file.now wanted.placings).holders work.new.held.rows.now }
    ensures moved { result ≡ file_moves_by wanted.way loaded.now.file.now wanted.placings }
    ensures dead { DeadChoke wanted.way loaded.now.file.now wanted.placings work.new.dead.now }
    ensures long { AsLong work.old work.new }
{
    let end = loaded.plant.links.n as usize;
    lists::fill::with_value(end, lists::NONE, work.held.holders);
    place_all(loaded, wanted, work)
}

// The choke bytes by a walk of its own, with the rows at hand.
// A function of its own: its lists can be read through a `&Held` that is lent to it, and not, by any rule that the check has, beside the queue and the dead of the same Work.
fn walk_choke(links: &Links, held: &Held, queue: &mut [u16], dead: &mut [u16], choke: &mut [u8])
    requires { Workable links.now.n held.now.rows.now held.now.holders.now queue.old dead.old choke.old }
    ensures { choke.new ≡ written links.now.n (list_of links.now.n (choke_byte links.now.n links.now.ends.now held.now.holders.now)) choke.old }
{
    search::choke::write_set(links, held.rows, held.holders, queue, dead, choke);
}

// The choke bytes of the holders: of those marked where these are the choke set, else by the walk of its own, with the rows at hand. A match on the way: a closed kind, see planner::Way.
fn write_choke(loaded: &LoadedFile, wanted: Wanted, work: &mut Work, choke: &mut [u8])
    requires { Choking wanted.way loaded.now.file.now wanted.placings work.old choke.old }
    ensures { choke.new ≡ written (file_n loaded.now.file.now) (list_of (file_n loaded.now.file.now) (choke_byte (file_n loaded.now.file.now) (file_links loaded.now.file.now) (state_by wanted.way loaded.now.file.now wanted.placings).holders)) choke.old }
{
    let n = loaded.plant.links.n;
    match wanted.way {
        Way::Queued if wanted.placings == n as u32 => search::bytes::write_seen(work.dead, choke),
        _ => {
            lists::fill::with_value(n as usize, lists::NONE, work.dead);
            walk_choke(
                &loaded.plant.links,
                &work.held,
                work.queue,
                work.dead,
                choke,
            );
        }
    }
}

// The leader list and the choke bytes after so many placings, with lists to work in. Returns how many gateways these move.
// The two lists stay two parameters: each is lent on to a function of its own.
fn read_made(
    loaded: &LoadedFile,
    wanted: Wanted,
    work: &mut Work,
    leaders: &mut [u16],
    choke: &mut [u8],
) -> u32
    requires { Readable loaded.now.file.now wanted.placings leaders.old choke.old × Making loaded.now.file.now wanted.placings work.old }
    ensures leaders { leaders.new ≡ read_leaders (state_by wanted.way loaded.now.file.now wanted.placings) leaders.old choke.old }
    ensures choke { choke.new ≡ read_choke (state_by wanted.way loaded.now.file.now wanted.placings) leaders.old choke.old }
    ensures moved { result ≡ file_moves_by wanted.way loaded.now.file.now wanted.placings }
{
    let moved = make(loaded, wanted, work);
    let holders = &mut *work.held.holders;
    stars::leaders(loaded.plant.links.n, loaded.order, holders, leaders);
    write_choke(loaded, wanted, work, choke);
    moved
}

// .. with all lists but the rows of its own.
// ask::ask_whole makes the same: the arrays live in the function that lends them, so that no one function could make them for both.
fn read_with(
    loaded: &LoadedFile,
    wanted: Wanted,
    rows: &mut [Row],
    leaders: &mut [u16],
    choke: &mut [u8],
) -> u32
    requires { Readable loaded.now.file.now wanted.placings leaders.old choke.old × NobodyIn (file_n loaded.now.file.now) rows.old }
    ensures leaders { leaders.new ≡ read_leaders (state_by wanted.way loaded.now.file.now wanted.placings) leaders.old choke.old }
    ensures choke { choke.new ≡ read_choke (state_by wanted.way loaded.now.file.now wanted.placings) leaders.old choke.old }
    ensures moved { result ≡ file_moves_by wanted.way loaded.now.file.now wanted.placings }
{
    let end = loaded.plant.links.n as usize;
    let mut holders = [0u16; PLACES];
    let mut queue = [0u16; PLACES];
    let mut dead = [lists::NONE; PLACES];
    let mut looked = [0u16; PLACES];
    let held = Held {
        rows,
        holders: &mut holders,
    };
    let mut work = Work {
        held,
        queue: &mut queue,
        dead: &mut dead[..end],
        looked: &mut looked,
    };
    read_made(loaded, wanted, &mut work, leaders, choke)
}

// .. and with rows: a small plant needs few, which are quicker to clear than those for any plant.
pub(crate) fn read_lists(
    loaded: &LoadedFile,
    wanted: Wanted,
    leaders: &mut [u16],
    choke: &mut [u8],
) -> u32
    requires { Readable loaded.now.file.now wanted.placings leaders.old choke.old }
    ensures leaders { leaders.new ≡ read_leaders (state_by wanted.way loaded.now.file.now wanted.placings) leaders.old choke.old }
    ensures choke { choke.new ≡ read_choke (state_by wanted.way loaded.now.file.now wanted.placings) leaders.old choke.old }
    ensures moved { result ≡ file_moves_by wanted.way loaded.now.file.now wanted.placings }
{
    if (loaded.plant.links.n as usize) <= FEW {
        let mut few = empty_rows::<FEW>();
        return read_with(loaded, wanted, &mut few, leaders, choke);
    }
    let mut rows = empty_rows::<PLACES>();
    read_with(loaded, wanted, &mut rows, leaders, choke)
}

// What each gateway holds, gathered before the search into a table of rows (02, change 3), and kept while gateways get other holders. The search goes by the table alone.
ghost use Rattle.std.specs.Prelude.{◌≡◌, ◌++◌, get_or, replicate, take, drop};
ghost use Rattle.packing.specs.Plant.{GATEWAYS, HIGHEST, NONE};
ghost use Rattle.search.specs.Table.{held_table};
ghost use Rattle.search.specs.Pre.{Joinable, Joined, row_has_place};
ghost use Rattle.search.specs.RowPre.{raised, pushed, exchanged, exchanged_row, moved_rows};

// The places of a row: as many as the highest limit.
pub const ROW: usize = 16;

pub type Row = [u16; ROW];

/// The holder of each gateway, and the rows of those that they hold.
#[derive(Drop)]
pub struct Held<'a> {
    pub rows: &'a mut [Row],
    pub holders: &'a mut [u16],
}

// A row for each number below 1,024.
pub type Rows = [Row; lists::PLACES];

// As many rows as small plants need, which are so spared the clearing of all.
pub const FEW: usize = 128;

// Rows with nobody in them.
pub fn empty_rows<const N: usize>() -> [Row; N]
    ensures { result ≡ replicate N (replicate HIGHEST NONE) }
{
    [[lists::NONE; ROW]; N]
}

// One pass over the holders, into rows with nobody in them: v takes the next place in the row of its holder.
pub fn gather(n: u16, holders: &[u16], rows: &mut Rows)
    requires { rows.old ≡ replicate GATEWAYS (replicate HIGHEST NONE) }
    ensures { rows.new ≡ held_table n holders.now }
{
    let mut loads = [0u16; lists::PLACES];
    for v in 0..n {
        let u = lists::entry(holders, v);
        if u < lists::GATEWAYS {
            let place = loads[u as usize];
            lists::put(&mut rows[u as usize], place, v);
            loads[u as usize] = place + 1;
        }
    }
}

// Whether fewer stand in the row than the limit: nobody is in the last place that the limit allows.
#[tactic(auto, unfolding(crate::specs::Pre::row_has_place))]
pub fn has_place(row: &[u16], limit: u8) -> bool
    ensures { result ≡ row_has_place row.now limit }
{
    limit != 0 && number(row, (limit - 1) as usize) == lists::NONE
}

// What stands in the row joins the queue, in its turn. Returns how many are queued then. Fixed memory, no heap: the queue is a lent list with a length beside.
pub(crate) fn join(row: &[u16], queue: &mut [u16], tail: usize) -> usize
    requires { Joinable row.now queue.old tail }
    ensures { Joined row.now queue.old queue.new tail result }
{
    let mut end = tail;
    for v in row {
        if *v == lists::NONE {
            return end;
        }
        queue[end] = *v;
        end += 1;
    }
    end
}

// The number at place i of a row, and 65535 past its end.
fn number(row: &[u16], i: usize) -> u16
    ensures { result ≡ get_or row.now i NONE }
{
    row.get(i).copied().unwrap_or(lists::NONE)
}

// From a place that is free for y on, those that are smaller move up, and y takes the place behind them.
fn raise(row: &mut [u16], place: usize, y: u16)
    ensures { row.new ≡ take place row.old ++ raised y (drop place row.old) }
{
    for i in place..row.len() {
        let behind = number(row, i + 1);
        if y <= behind {
            row[i] = y;
            return;
        }
        row[i] = behind;
    }
}

// y takes a place, and each from there on moves on by one, up to the place of x.
fn push(row: &mut [u16], place: usize, x: u16, y: u16)
    ensures { row.new ≡ take place row.old ++ pushed x y (drop place row.old) }
{
    let mut carried = y;
    for i in place..row.len() {
        let here = row[i];
        row[i] = carried;
        if here == x {
            return;
        }
        carried = here;
    }
}

// x leaves a row and y joins it, in one pass: a shift does both to each row that it comes to but the first, which has a place free. No method of the library: it stops at the one or the other, and what is done differs.
fn exchange(row: &mut [u16], x: u16, y: u16)
    ensures { row.new ≡ exchanged x y row.old }
{
    for i in 0..row.len() {
        let here = row[i];
        if here == x {
            raise(row, i, y);
            return;
        }
        if y <= here {
            push(row, i, x, y);
            return;
        }
    }
}

// x leaves the row of u and y joins it; 65535 for nobody. A number past the rows has none.
pub(crate) fn exchange_row(rows: &mut [Row], u: u16, x: u16, y: u16)
    ensures { rows.new ≡ exchanged_row x y u rows.old }
{
    if (u as usize) < rows.len() {
        exchange(&mut rows[u as usize], x, y);
    }
}

// x is held by u, and no more by its old holder.
pub(crate) fn move_row(rows: &mut [Row], x: u16, old: u16, u: u16)
    ensures { rows.new ≡ moved_rows x old u rows.old }
{
    exchange_row(rows, old, x, lists::NONE);
    exchange_row(rows, u, lists::NONE, x);
}

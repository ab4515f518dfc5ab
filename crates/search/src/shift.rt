// "u takes x. If x is not v, x's old holder lets x go and takes the gateway it was seen from, and so on until v has a holder."
ghost use Rattle.std.specs.Prelude.{◌≡◌};
ghost use Rattle.search.specs.Search.{shift};
ghost use Rattle.search.specs.Pre.{takings};
ghost use Rattle.search.specs.Held.{SameHeld};
ghost use Rattle.search.specs.RowPre.{Taken, TakenFor, RowsKept};

use crate::held::{Held, exchange_row, move_row};

// u takes x, which leaves the row of its old holder and joins that of u. Returns the old holder.
pub fn take(x: u16, u: u16, held: &mut Held) -> u16
    ensures taken { Taken x u held.old.holders.now held.new.holders.now held.old.rows.now held.new.rows.now result }
    ensures same { SameHeld held.old held.new }
{
    let holders = &mut *held.holders;
    let old = lists::entry(holders, x);
    lists::put(holders, x, u);
    move_row(held.rows, x, old, u);
    old
}

// .. where u lets another go: one pass over its row does both. x stays in the row of its old holder, until that one takes another in its stead.
fn take_for(x: u16, gone: u16, u: u16, held: &mut Held) -> u16
    ensures taken { TakenFor x gone u held.old.holders.now held.new.holders.now held.old.rows.now held.new.rows.now result }
    ensures same { SameHeld held.old held.new }
{
    let holders = &mut *held.holders;
    let old = lists::entry(holders, x);
    lists::put(holders, x, u);
    exchange_row(held.rows, u, gone, x);
    old
}

// Returns how many were taken. The first taker lets nobody go, and v, the last that is taken, was in nobody's row.
// v, u and x are no group: v is for whom the search was, and u the first to take, x.
pub(crate) fn shift_back(n: u16, v: u16, u: u16, x: u16, from: &[u16], held: &mut Held) -> u16
    ensures holders { held.new.holders.now ≡ shift n v from.now u x held.old.holders.now }
    ensures count { result ≡ takings n v from.now u x held.old.holders.now }
    ensures rows { RowsKept n v from.now u x held.old.holders.now held.old.rows.now held.new.rows.now }
    ensures same { SameHeld held.old held.new }
{
    let mut taker = u;
    let mut taken = x;
    let mut gone = lists::NONE;
    for k in 0..n {
        let old = take_for(taken, gone, taker, held);
        if taken == v {
            return k + 1;
        }
        gone = taken;
        taker = old;
        taken = lists::entry(from, old);
    }
    n
}

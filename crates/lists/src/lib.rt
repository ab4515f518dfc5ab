// Functions on lists of numbers by gateway. What is past a list's end counts as 0, and what has no place is not written; only those of modules fill and listed ask for room, counts::tally_into for zeros, and counts::count_where and listed::write_them for a test that may be called.
#![tactic(auto)]

pub mod counts;
pub mod fill;
pub mod listed;
pub mod marks;
pub mod tests;

ghost use Rattle.std.specs.Prelude.{◌≡◌, set};
ghost use Rattle.packing.specs.Plant.{at};

// The most gateways and links of a plant, the lowest and highest limit, and the number for none (01, "The product", "The record").
pub const GATEWAYS: u16 = 1024;

pub const LINKS: u16 = 8192;

pub const LOWEST: u8 = 2;

pub const HIGHEST: u8 = 16;

// A number and no Option: it is 01's for the record's holders, of which every theorem speaks, and 02's for rows (change 3, "then 65535"). Marks and chains are fixed lists of numbers too: lists of Options would be twice as long, since an Option<u16> takes four bytes.
pub const NONE: u16 = 65535;

// The lengths of lists with a place for each gateway, and with two places for each link.
pub const PLACES: usize = 1024;

pub const ENDS: usize = 16384;

// The entry at i, and 0 past the end.
pub fn entry(list: &[u16], i: u16) -> u16
    ensures { result ≡ at list.now i }
{
    list.get(i as usize).copied().unwrap_or(0)
}

// The byte at i, and 0 past the end. entry and byte differ in the type of the entry and of the place: one word for both would have to be called with a cast of the place at each of entry's forty calls.
pub fn byte(list: &[u8], i: usize) -> u8
    ensures { result ≡ at list.now i }
{
    list.get(i).copied().unwrap_or(0)
}

// Writes x at i, where there is such a place. By get_mut it does not prove: of a slice its contract does not say what the list holds afterwards.
pub fn put(list: &mut [u16], i: u16, x: u16)
    ensures { list.new ≡ set list.old i x }
{
    let place = i as usize;
    if place < list.len() {
        list[place] = x;
    }
}

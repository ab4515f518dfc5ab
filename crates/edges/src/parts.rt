// A case's numbers, parts of lists, and telling lists apart.

// The numbers of a line of the script.
pub(crate) type Numbers = [u16; 26];

// Places in large lists, and in those of links.
pub(crate) const LARGE: usize = 1100;

pub(crate) const LARGE_LINKS: usize = 16400;

// A case's number as 8 bits.
pub(crate) fn byte(x: u16) -> u8 {
    (x % 256) as u8
}

// The first len entries, or the whole list where it has fewer.
pub(crate) fn front<T>(list: &[T], len: usize) -> &[T] {
    &list[..len.min(list.len())]
}

pub(crate) fn front_mut<T>(list: &mut [T], len: usize) -> &mut [T] {
    let end = len.min(list.len());
    &mut list[..end]
}

// A number that tells most lists apart, for a list of which no copy is at hand.
pub(crate) fn digest(list: &[u16]) -> u64 {
    let mut sum: u64 = 0;
    for x in list {
        sum = (sum * 31 + u64::from(*x)) % 1000003;
    }
    sum
}

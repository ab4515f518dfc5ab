// 01, "The plant file and the listing": "a reader that keeps the file together with the index of its next link".
ghost use Rattle.std.specs.Prelude.{◌≡◌};
ghost use Rattle.plant_file.specs.Reader.{link_at, next_index, Reads, links_left};

use crate::bytes::{number_at, number_in};

// The file, and the index of its next link.
#[derive(Clone, Copy)]
pub struct Reader<'a> {
    pub src: &'a [u8],
    pub at: usize,
}

/// The work: the two ends of the link at an index. One test for all four bytes where they are there.
#[tactic(auto, unfolding(crate::specs::Reader::link_at))]
pub fn link_at(file: &[u8], i: usize) -> Option<(u16, u16)>
    ensures { result ≡ link_at file.now i }
{
    if (crate::link_count(file) as usize) <= i {
        None
    } else if 13 + 4 * i < file.len() {
        Some((number_in(file, 10 + 4 * i), number_in(file, 12 + 4 * i)))
    } else {
        Some((number_at(file, 10 + 4 * i), number_at(file, 12 + 4 * i)))
    }
}

/// The work: the index after a link's. Where there is no link it stays, so that it can't run past the largest number.
#[tactic(auto, unfolding(crate::specs::Reader::next_index))]
pub fn next_index(file: &[u8], i: usize) -> usize
    ensures { result ≡ next_index file.now i }
{
    if i < (crate::link_count(file) as usize) {
        i + 1
    } else {
        i
    }
}

impl<'a> Reader<'a> {
    /// A reader whose next link is the one at an index.
    pub fn new(src: &'a [u8], at: usize) -> Reader<'a>
        ensures { (result.src ≡ src.entry) × (result.at ≡ at) }
    {
        Reader { src, at }
    }
}

impl<'a> Iterator for Reader<'a> {
    type Item = (u16, u16);

    ghost next_gives = { Reads };

    ghost remaining = { links_left };

    fn next(&mut self) -> Option<(u16, u16)> {
        let link = link_at(self.src, self.at);
        self.at = next_index(self.src, self.at);
        link
    }
}

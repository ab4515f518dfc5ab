// A chain of the index, from the place of one far end on: the neighbours that stand along it.
// follow::is_there, search's visit and recursion's find_holder go by it.
ghost use Rattle.chains.specs.Chain.{Follows, Whole, ends_left};

// The links, their index, and the place of the next far end.
#[derive(Clone, Copy)]
pub struct Chain<'a> {
    pub links: &'a [u16],
    pub next: &'a [u16],
    pub end: u16,
}

impl<'a> Iterator for Chain<'a> {
    type Item = u16;

    ghost can_next = { Whole };

    ghost next_gives = { Follows };

    ghost remaining = { ends_left };

    fn next(&mut self) -> Option<u16> {
        if self.end == lists::NONE {
            return None;
        }
        let u = crate::neighbour_at(self.links, self.end);
        self.end = crate::next_end(self.next, self.end);
        Some(u)
    }
}

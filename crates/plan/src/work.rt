// The lists that placings work in, lent from one function to the next.
use search::held::Held;

// The queue, the dead, and whom a search marks.
#[derive(Drop)]
pub(crate) struct Work<'a> {
    pub(crate) held: Held<'a>,
    pub(crate) queue: &'a mut [u16],
    pub(crate) dead: &'a mut [u16],
    pub(crate) looked: &'a mut [u16],
}

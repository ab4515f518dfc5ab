// What is asked for of a file.
use planner::Way;

// So many placings, in one way.
#[derive(Clone, Copy, Debug, PartialEq, Eq)]
pub(crate) struct Wanted {
    pub(crate) way: Way,
    pub(crate) placings: u32,
}

// The lists that a search works in. No heap: they are fixed lists with a length beside.
ghost use Rattle.search.specs.Noted.{Notable};

// The first `tail` of the queue are queued. from has for each gateway the one that it was seen from. Whom the search marks, it notes one after the other in the first `count` places of looked, so that the marks can be taken back without a pass over all gateways.
#[derive(Drop)]
pub(crate) struct Work<'a> {
    pub(crate) queue: &'a mut [u16],
    pub(crate) tail: usize,
    pub(crate) from: &'a mut [u16],
    pub(crate) looked: &'a mut [u16],
    pub(crate) count: usize,
    ghost notable: { Notable looked.now count from.now },
}

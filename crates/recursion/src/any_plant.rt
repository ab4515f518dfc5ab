// What the short search is handed of a plant.
ghost use Rattle.chains.specs.Index.{Index};

/// Links with their index, and a limit for each gateway, 0 past the list's end.
// search::plant says more of them, and a caller of the short search need not show it: here an end may be n or more, and a gateway without limit has 0.
#[derive(Clone, Copy)]
pub struct AnyPlant<'a> {
    pub n: u16,
    pub limits: &'a [u8],
    pub links: &'a [u16],
    pub next: &'a [u16],
    pub ghost index: { Index links.now next.now },
}

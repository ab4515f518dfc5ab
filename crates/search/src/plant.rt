// What a search is handed of a plant: its links with their index, and a limit for each gateway.
ghost use Rattle.std.specs.Prelude.{◌≤◌, length};
ghost use Rattle.chains.specs.Index.{IndexFor};

/// The links of n gateways, and the index of their ends.
#[derive(Clone, Copy)]
pub struct Links<'a> {
    pub n: u16,
    pub ends: &'a [u16],
    pub next: &'a [u16],
    pub ghost index: { IndexFor n ends.now next.now },
}

/// .. with a limit for each gateway: how many it may hold.
#[derive(Clone, Copy)]
pub struct Plant<'a> {
    pub links: Links<'a>,
    pub limits: &'a [u8],
    pub ghost limited: { links.n ≤ length limits.now },
}

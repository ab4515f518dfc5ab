// A plant that lists are checked against.
ghost use Rattle.checker.specs.Pre.{Checkable};

// n gateways, the limit of each, and two numbers for each link.
#[derive(Clone, Copy)]
pub(crate) struct Plant<'a> {
    pub n: u16,
    pub limits: &'a [u8],
    pub links: &'a [u16],
    ghost sound: { Checkable n links.now },
}

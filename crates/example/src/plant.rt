// What a program keeps of a plant. The planner keeps nothing: each call takes the small part that the call before it returned, and the same four lists.
use planner::Small;

// Two numbers a link, and a place a gateway.
#[derive(Drop)]
pub(crate) struct Plant {
    pub(crate) small: Small,
    links: [u16; 8],
    order: [u16; 5],
    holders: [u16; 5],
    limits: [u8; 5],
}

// Each call answers with its refusal, and 0 where there is none.
impl Plant {
    pub(crate) fn open(n: u16, t: u8) -> Plant {
        let links = [0u16; 8];
        let mut order = [0u16; 5];
        let mut holders = [0u16; 5];
        let mut limits = [0u8; 5];
        let small = Small::open(n, t, &links, &mut order, &mut holders, &mut limits).small;
        Plant {
            small,
            links,
            order,
            holders,
            limits,
        }
    }

    pub(crate) fn link(&mut self, a: u16, b: u16) -> u32 {
        let answer = self.small.link(
            &mut self.links,
            &self.order,
            &self.holders,
            &self.limits,
            a,
            b,
        );
        self.small = answer.small;
        answer.refusal
    }

    pub(crate) fn order(&mut self, numbers: &[u16]) -> u32 {
        let answer = self.small.order(
            &self.links,
            &mut self.order,
            &self.holders,
            &self.limits,
            numbers,
        );
        self.small = answer.small;
        answer.refusal
    }

    pub(crate) fn set_limit(&mut self, gateway: u16, limit: u8) -> u32 {
        let answer = self.small.set_limit(
            &self.links,
            &self.order,
            &self.holders,
            &mut self.limits,
            gateway,
            limit,
        );
        self.small = answer.small;
        answer.refusal
    }

    pub(crate) fn place(&mut self) -> u32 {
        let answer = self
            .small
            .place(&self.links, &self.order, &mut self.holders, &self.limits);
        self.small = answer.small;
        answer.refusal
    }

    // Leaves the plant as it is.
    pub(crate) fn read(&self, leaders: &mut [u16], choke: &mut [u8]) -> u32 {
        let answer = self.small.read(
            &self.links,
            &self.order,
            &self.holders,
            &self.limits,
            leaders,
            choke,
        );
        answer.refusal
    }
}

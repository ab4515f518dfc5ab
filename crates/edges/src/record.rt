// A record whose gateways are being placed: the small part, and the lists that are lent to each call. A placing changes the holders alone.
use planner::{Answer, PlaceAnswer, Small, Way};
use violator::WhyAnswer;

#[derive(Drop)]
pub(crate) struct Record<'a> {
    pub(crate) small: Small,
    pub(crate) links: &'a [u16],
    pub(crate) order: &'a [u16],
    pub(crate) holders: &'a mut [u16],
    pub(crate) limits: &'a [u8],
}

impl<'a> Record<'a> {
    pub(crate) fn place(&mut self, way: Way) -> PlaceAnswer {
        let answer = self
            .small
            .place_by(way, self.links, self.order, self.holders, self.limits);
        self.small = answer.small;
        answer
    }

    pub(crate) fn read(&self, leaders: &mut [u16], choke: &mut [u8]) -> Answer {
        self.small.read(
            self.links,
            self.order,
            self.holders,
            self.limits,
            leaders,
            choke,
        )
    }

    pub(crate) fn why_alone(
        &self,
        gateway: u16,
        first: &mut [u16],
        second: &mut [u16],
    ) -> WhyAnswer {
        violator::why_alone(
            self.small,
            self.links,
            self.order,
            self.holders,
            self.limits,
            gateway,
            first,
            second,
        )
    }
}

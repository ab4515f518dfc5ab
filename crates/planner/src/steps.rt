// The steps of each call, or its first refusal; no lent list is changed on a refusal. What a call answers by them is told in lib.
// The lists stay parameters: open, link, order, set_limit and place each write another of them, so no one struct could lend them; check and read take the same four.
ghost use Rattle.std.specs.Prelude.{◌≡◌, ◌≤◌, ◌*◌, length};
ghost use Rattle.packing.specs.Plant.{at, first_links};
ghost use Rattle.planner.specs.State.{state_of};
ghost use Rattle.planner.specs.Calls as calls;
ghost use Rattle.planner.specs.Calls.{answer_of, small_opened, open_call, call, place_answer_of, read_leaders, read_choke};
ghost use Rattle.planner.specs.Tried.{answered, place_answered};
ghost use Rattle.planner.specs.Ways.{after_by, answer_by};

use crate::{Small, Way, refusals};
use recursion::any_plant::AnyPlant;
use refusal::Refusal;
use search::plant::{Links, Plant};

// Places v in one of the ways.
fn search_by(way: Way, plant: &Plant, v: u16, holders: &mut [u16]) -> Option<u16>
    ensures answer { result ≡ answer_by way plant.now.links.n (at plant.now.limits.now) plant.now.links.ends.now holders.old v }
    ensures holders { holders.new ≡ after_by way plant.now.links.n (at plant.now.limits.now) plant.now.links.ends.now holders.old v }
{
    // a closed kind: see Way in lib
    match way {
        Way::Queued => search::place(plant, v, holders),
        Way::Recursive => {
            let any = AnyPlant {
                n: plant.links.n,
                limits: plant.limits,
                links: plant.links.ends,
                next: plant.links.next,
            };
            recursion::place(&any, v, holders)
        }
    }
}

impl Small {
    pub(crate) fn try_open(
        n: u16,
        t: u8,
        links: &[u16],
        order: &mut [u16],
        holders: &mut [u16],
        limits: &mut [u8],
    ) -> Result<Small, Refusal>
        ensures answer { answered (small_opened 0 2) result ≡ answer_of (open_call n t links.now order.old holders.old limits.old) }
        ensures order { order.new ≡ (open_call n t links.now order.old holders.old limits.old).state.order }
        ensures holders { holders.new ≡ (open_call n t links.now order.old holders.old limits.old).state.holders }
        ensures limits { limits.new ≡ (open_call n t links.now order.old holders.old limits.old).state.limits }
    {
        refusals::of_open(n, t, order, holders, limits)?;
        lists::fill::with_places(n as usize, order);
        lists::fill::with_value(n as usize, lists::NONE, holders);
        lists::fill::with_value(n as usize, t, limits);
        Ok(Small { n, t, m: 0, k: 0 })
    }

    pub(crate) fn try_link(
        self,
        links: &mut [u16],
        order: &[u16],
        holders: &[u16],
        limits: &[u8],
        a: u16,
        b: u16,
    ) -> Result<Small, Refusal>
        ensures answer { answered self result ≡ answer_of (call (state_of self links.old order.now holders.now limits.now) (calls.link a b)) }
        ensures links { links.new ≡ (call (state_of self links.old order.now holders.now limits.now) (calls.link a b)).state.links }
    {
        self.check(links, order, holders, limits)?;
        refusals::of_link(self, links, a, b)?;
        let at = 2 * (self.m as usize);
        links[at] = a;
        links[at + 1] = b;
        Ok(Small {
            m: self.m + 1,
            ..self
        })
    }

    pub(crate) fn try_order(
        self,
        links: &[u16],
        order: &mut [u16],
        holders: &[u16],
        limits: &[u8],
        numbers: &[u16],
    ) -> Result<Small, Refusal>
        ensures answer { answered self result ≡ answer_of (call (state_of self links.now order.old holders.now limits.now) (calls.order numbers.now)) }
        ensures order { order.new ≡ (call (state_of self links.now order.old holders.now limits.now) (calls.order numbers.now)).state.order }
    {
        self.check(links, order, holders, limits)?;
        refusals::of_order(self, numbers)?;
        lists::fill::with_list(numbers, order);
        Ok(self)
    }

    pub(crate) fn try_set_limit(
        self,
        links: &[u16],
        order: &[u16],
        holders: &[u16],
        limits: &mut [u8],
        gateway: u16,
        limit: u8,
    ) -> Result<Small, Refusal>
        ensures answer { answered self result ≡ answer_of (call (state_of self links.now order.now holders.now limits.old) (calls.set_limit gateway limit)) }
        ensures limits { limits.new ≡ (call (state_of self links.now order.now holders.now limits.old) (calls.set_limit gateway limit)).state.limits }
    {
        self.check(links, order, holders, limits)?;
        refusals::of_limit(self, gateway, limit)?;
        limits[gateway as usize] = limit;
        Ok(self)
    }

    pub(crate) fn try_place_by<'a>(
        self,
        way: Way,
        links: &'a [u16],
        order: &[u16],
        holders: &mut [u16],
        limits: &'a [u8],
    ) -> Result<(Small, u16), Refusal>
        ensures answer { place_answered self result ≡ place_answer_of (state_of self links.now order.now holders.old limits.now) (calls.place_by way) }
        ensures holders { holders.new ≡ (call (state_of self links.now order.now holders.old limits.now) (calls.place_by way)).state.holders }
    {
        self.check(links, order, holders, limits)?;
        refusals::of_place(self)?;
        let ends = self.links_of(links);
        let next = chains::build::index_of(ends);
        let plant = Plant {
            links: Links {
                n: self.n,
                ends,
                next: &next,
            },
            limits,
        };
        // There is one: the next of a sound record may be placed.
        let moved = search_by(way, &plant, order[self.k as usize], holders).unwrap();
        let small = Small {
            k: self.k + 1,
            ..self
        };
        Ok((small, moved))
    }

    pub(crate) fn try_read(
        self,
        links: &[u16],
        order: &[u16],
        holders: &[u16],
        limits: &[u8],
        leaders: &mut [u16],
        choke: &mut [u8],
    ) -> Result<Small, Refusal>
        ensures answer { answered self result ≡ answer_of (call (state_of self links.now order.now holders.now limits.now) (calls.read leaders.old choke.old)) }
        ensures leaders { leaders.new ≡ read_leaders (state_of self links.now order.now holders.now limits.now) leaders.old choke.old }
        ensures choke { choke.new ≡ read_choke (state_of self links.now order.now holders.now limits.now) leaders.old choke.old }
    {
        self.check(links, order, holders, limits)?;
        refusals::of_read(self, leaders, choke)?;
        let ends = self.links_of(links);
        let next = chains::build::index_of(ends);
        let links = Links {
            n: self.n,
            ends,
            next: &next,
        };
        // Both answers are true: the lengths were tested above.
        stars::leaders(self.n, order, holders, leaders);
        search::choke::choke_set(&links, holders, choke);
        Ok(self)
    }

    // The record's links in the lent list: the first m.
    #[tactic(auto, unfolding(packing::specs::Plant::first_links))]
    fn links_of(self, links: &[u16]) -> &[u16]
        requires { 2 * self.m ≤ length links.now }
        ensures { result.now ≡ first_links self.m links.now }
    {
        &links[..2 * (self.m as usize)]
    }
}

// The calls of 01 on a record, a second placing call (02, change 7) and a call that sets a gateway's limit (change 8): the small part as a struct that goes in by value and comes back beside the refusal number, and four lent lists.
#![tactic(auto)]

pub mod members;
mod refusals;
mod steps;

ghost use Rattle.std.specs.Prelude.{◌≡◌};
ghost use Rattle.refusal.specs.Refusals.{code};
ghost use Rattle.planner.specs.State.{state_of};
ghost use Rattle.planner.specs.Calls as calls;
ghost use Rattle.planner.specs.Calls.{answer_of, open_call, record_refusal, call, place_answer_of, read_leaders, read_choke};
ghost use Rattle.planner.specs.Tried.{answered, place_answered};

use refusal::Refusal;
use sound::Record;

// 01's small part: n gateways, limit T, m links, k placed.
#[derive(Clone, Copy, Debug, PartialEq, Eq)]
pub struct Small {
    pub n: u16,
    pub t: u8,
    pub m: u16,
    pub k: u16,
}

// The refusal's number, or 0 for accepted, and the small part after the call.
// No Result: 01 gives the small part beside the number, also on refusal, and answer_of and the theorems over calls speak of both.
#[derive(Clone, Copy, Debug, PartialEq, Eq)]
pub struct Answer {
    pub refusal: u32,
    pub small: Small,
}

// The same of a placing, with the number of gateways that have another holder after it. The other calls have no such number, so it is a struct of its own.
#[derive(Clone, Copy, Debug, PartialEq, Eq)]
pub struct PlaceAnswer {
    pub refusal: u32,
    pub small: Small,
    pub moved: u16,
}

impl Answer {
    // By the small part before the call, and what the call's steps gave.
    fn of(before: Small, tried: Result<Small, Refusal>) -> Answer
        ensures { result ≡ answered before tried }
    {
        match tried {
            Ok(small) => Answer { refusal: 0, small },
            Err(refusal) => Answer {
                refusal: refusal.number(),
                small: before,
            },
        }
    }
}

impl PlaceAnswer {
    // .. of a placing: the small part after it, and how many it moved.
    fn of(before: Small, tried: Result<(Small, u16), Refusal>) -> PlaceAnswer
        ensures { result ≡ place_answered before tried }
    {
        match tried {
            Ok((small, moved)) => PlaceAnswer {
                refusal: 0,
                small,
                moved,
            },
            Err(refusal) => PlaceAnswer {
                refusal: refusal.number(),
                small: before,
                moved: 0,
            },
        }
    }
}

// The searches that find a holder for the next: 01's, by a queue, and the short one of 02, change 7.
// No closure: a closed kind, of which placed_by and the theorems of the two ways speak by case.
#[derive(Clone, Copy, Debug, PartialEq, Eq, Hash)]
pub enum Way {
    Queued,
    Recursive,
}

impl Small {
    /// Refusal::NotSound, 26, where the record is not sound. The numbers may be any, and the lists of any lengths and contents.
    #[tactic(auto, unfolding(crate::specs::Calls::record_refusal, crate::specs::State::sound_state))]
    pub fn check(
        self,
        links: &[u16],
        order: &[u16],
        holders: &[u16],
        limits: &[u8],
    ) -> Result<(), Refusal>
        ensures { code result ≡ record_refusal (state_of self links.now order.now holders.now limits.now) }
    {
        let record = Record {
            n: self.n,
            t: self.t,
            m: self.m,
            k: self.k,
            links,
            order,
            holders,
            limits,
        };
        if record.is_sound() {
            return Ok(());
        }
        Err(Refusal::NotSound)
    }

    // Order 0, 1, .., no holder, the limit T for each gateway, no link, none placed. The links are lent with the other lists; nothing of them is read or written.
    pub fn open(
        n: u16,
        t: u8,
        links: &[u16],
        order: &mut [u16],
        holders: &mut [u16],
        limits: &mut [u8],
    ) -> Answer
        ensures answer { result ≡ answer_of (open_call n t links.now order.old holders.old limits.old) }
        ensures order { order.new ≡ (open_call n t links.now order.old holders.old limits.old).state.order }
        ensures holders { holders.new ≡ (open_call n t links.now order.old holders.old limits.old).state.holders }
        ensures limits { limits.new ≡ (open_call n t links.now order.old holders.old limits.old).state.limits }
    {
        let none = Small {
            n: 0,
            t: 2,
            m: 0,
            k: 0,
        };
        Answer::of(none, Small::try_open(n, t, links, order, holders, limits))
    }

    // Appends the link a-b.
    pub fn link(
        self,
        links: &mut [u16],
        order: &[u16],
        holders: &[u16],
        limits: &[u8],
        a: u16,
        b: u16,
    ) -> Answer
        ensures answer { result ≡ answer_of (call (state_of self links.old order.now holders.now limits.now) (calls.link a b)) }
        ensures links { links.new ≡ (call (state_of self links.old order.now holders.now limits.now) (calls.link a b)).state.links }
    {
        Answer::of(self, self.try_link(links, order, holders, limits, a, b))
    }

    // Replaces the order.
    pub fn order(
        self,
        links: &[u16],
        order: &mut [u16],
        holders: &[u16],
        limits: &[u8],
        numbers: &[u16],
    ) -> Answer
        ensures answer { result ≡ answer_of (call (state_of self links.now order.old holders.now limits.now) (calls.order numbers.now)) }
        ensures order { order.new ≡ (call (state_of self links.now order.old holders.now limits.now) (calls.order numbers.now)).state.order }
    {
        Answer::of(self, self.try_order(links, order, holders, limits, numbers))
    }

    // Replaces one gateway's limit, before the first placing.
    pub fn set_limit(
        self,
        links: &[u16],
        order: &[u16],
        holders: &[u16],
        limits: &mut [u8],
        gateway: u16,
        limit: u8,
    ) -> Answer
        ensures answer { result ≡ answer_of (call (state_of self links.now order.now holders.now limits.old) (calls.set_limit gateway limit)) }
        ensures limits { limits.new ≡ (call (state_of self links.now order.now holders.now limits.old) (calls.set_limit gateway limit)).state.limits }
    {
        Answer::of(
            self,
            self.try_set_limit(links, order, holders, limits, gateway, limit),
        )
    }

    // The next in the order is kept or left. So that it finds a holder, others may change theirs; all whose holder changed are counted.
    pub fn place(
        self,
        links: &[u16],
        order: &[u16],
        holders: &mut [u16],
        limits: &[u8],
    ) -> PlaceAnswer
        ensures answer { result ≡ place_answer_of (state_of self links.now order.now holders.old limits.now) calls.place }
        ensures holders { holders.new ≡ (call (state_of self links.now order.now holders.old limits.now) calls.place).state.holders }
    {
        self.place_by(Way::Queued, links, order, holders, limits)
    }

    // The same by the short search: the same gateways are kept, but holders may be others, and more may change theirs.
    pub fn place_recursive(
        self,
        links: &[u16],
        order: &[u16],
        holders: &mut [u16],
        limits: &[u8],
    ) -> PlaceAnswer
        ensures answer { result ≡ place_answer_of (state_of self links.now order.now holders.old limits.now) calls.place_recursive }
        ensures holders { holders.new ≡ (call (state_of self links.now order.now holders.old limits.now) calls.place_recursive).state.holders }
    {
        self.place_by(Way::Recursive, links, order, holders, limits)
    }

    // .. in the way that is named.
    pub fn place_by(
        self,
        way: Way,
        links: &[u16],
        order: &[u16],
        holders: &mut [u16],
        limits: &[u8],
    ) -> PlaceAnswer
        ensures answer { result ≡ place_answer_of (state_of self links.now order.now holders.old limits.now) (calls.place_by way) }
        ensures holders { holders.new ≡ (call (state_of self links.now order.now holders.old limits.now) (calls.place_by way)).state.holders }
    {
        PlaceAnswer::of(self, self.try_place_by(way, links, order, holders, limits))
    }

    // Writes the leader list and the choke bytes of the holders so far.
    pub fn read(
        self,
        links: &[u16],
        order: &[u16],
        holders: &[u16],
        limits: &[u8],
        leaders: &mut [u16],
        choke: &mut [u8],
    ) -> Answer
        ensures answer { result ≡ answer_of (call (state_of self links.now order.now holders.now limits.now) (calls.read leaders.old choke.old)) }
        ensures leaders { leaders.new ≡ read_leaders (state_of self links.now order.now holders.now limits.now) leaders.old choke.old }
        ensures choke { choke.new ≡ read_choke (state_of self links.now order.now holders.now limits.now) leaders.old choke.old }
    {
        Answer::of(
            self,
            self.try_read(links, order, holders, limits, leaders, choke),
        )
    }
}

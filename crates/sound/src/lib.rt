// Whether a record is sound (01, "The record"; refusal 26). Each list is passed over a few times.
#![tactic(auto)]

pub mod held;
pub mod links;
mod marks;
mod passes;

ghost use Rattle.std.specs.Prelude.{◌≡◌, ◌&&◌, ◌*◌, ◌≤◌, length};
ghost use Rattle.packing.specs.Lists.{fits};
ghost use Rattle.packing.specs.Plant.{GATEWAYS, at, first_links};
ghost use Rattle.sound.specs.Sound.{is_sound, is_order, is_limit, numbers_sound, lists_long, limits_sound, ends_sound, once_each, holders_linked, holders_within, only_placed_held};

// Whether a gateway may have this limit.
#[tactic(auto, unfolding(crate::specs::Sound::is_limit))]
pub fn is_limit(limit: u8) -> bool
    ensures { result ≡ is_limit limit }
{
    lists::LOWEST <= limit && limit <= lists::HIGHEST
}

// Whether n is in range, and n entries are lent in a list that is read by gateway and in one that is written.
#[tactic(auto, unfolding(packing::specs::Lists::fits))]
pub fn is_fitting(n: u16, read: usize, out: usize) -> bool
    ensures { result ≡ fits n read out }
{
    n <= lists::GATEWAYS && n as usize <= read && n as usize <= out
}

// Whether a list may be an order of n gateways. Any number, and a list of any length and contents.
#[tactic(auto, unfolding(crate::specs::Sound::is_order))]
pub fn is_order(n: u16, numbers: &[u16]) -> bool
    ensures { result ≡ is_order n numbers.now }
{
    n <= lists::GATEWAYS && n as usize <= numbers.len() && passes::once_each(n, numbers)
}

// A record: the numbers of its small part, and its lists.
#[derive(Clone, Copy)]
pub struct Record<'a> {
    pub n: u16,
    pub t: u8,
    pub m: u16,
    pub k: u16,
    pub links: &'a [u16],
    pub order: &'a [u16],
    pub holders: &'a [u16],
    pub limits: &'a [u8],
}

impl Record<'_> {
    #[tactic(auto, unfolding(crate::specs::Sound::numbers_sound))]
    fn numbers_sound(&self) -> bool
        ensures { result ≡ numbers_sound self.now.n self.now.t self.now.m self.now.k }
    {
        self.n <= lists::GATEWAYS
            && lists::LOWEST <= self.t
            && self.t <= lists::HIGHEST
            && self.m <= lists::LINKS
            && self.k <= self.n
    }

    #[tactic(auto, unfolding(crate::specs::Sound::lists_long))]
    fn lists_long(&self) -> bool
        ensures { result ≡ lists_long self.now.n self.now.m self.now.links.now self.now.order.now self.now.holders.now self.now.limits.now }
    {
        let n = self.n as usize;
        2 * (self.m as usize) <= self.links.len()
            && n <= self.order.len()
            && n <= self.holders.len()
            && n <= self.limits.len()
    }

    #[tactic(auto, unfolding(packing::specs::Plant::first_links))]
    fn contents_sound(&self) -> bool
        requires { (self.now.n ≤ GATEWAYS) × (2 * self.now.m ≤ length self.now.links.now) }
        ensures { result ≡ (limits_sound self.now.n self.now.limits.now && ends_sound self.now.n (first_links self.now.m self.now.links.now) && once_each self.now.n self.now.order.now && holders_linked self.now.n (first_links self.now.m self.now.links.now) self.now.holders.now && holders_within self.now.n (at self.now.limits.now) self.now.holders.now && only_placed_held self.now.n self.now.k self.now.order.now self.now.holders.now) }
    {
        let links = &self.links[..2 * (self.m as usize)];
        passes::limits_sound(self.n, self.limits)
            && passes::ends_sound(self.n, links)
            && passes::once_each(self.n, self.order)
            && passes::holders_linked(self.n, links, self.holders)
            && passes::holders_within(self.n, self.limits, self.holders)
            && passes::only_placed_held(self.n, self.k, self.order, self.holders)
    }

    // 26's condition is that this is false. Any numbers, and lists of any lengths and contents.
    #[tactic(auto, unfolding(crate::specs::Sound::is_sound))]
    pub fn is_sound(&self) -> bool
        ensures { result ≡ is_sound self.now.n self.now.t self.now.m self.now.k self.now.links.now self.now.order.now self.now.holders.now self.now.limits.now }
    {
        self.numbers_sound() && self.lists_long() && self.contents_sound()
    }
}

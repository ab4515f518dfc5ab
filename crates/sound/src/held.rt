// Whether a search may be made with a list of holders.
ghost use Rattle.std.specs.Prelude.{◌≡◌, ◌≤◌};
ghost use Rattle.packing.specs.Plant.{GATEWAYS, HIGHEST, common};
ghost use Rattle.sound.specs.Sound.{holders_within};
ghost use Rattle.sound.specs.Searchable.{searchable};

use crate::passes::holders_within;

// Whether nobody holds more than the highest limit.
fn is_within(n: u16, holders: &[u16]) -> bool
    requires { n ≤ GATEWAYS }
    ensures { result ≡ holders_within n (common HIGHEST) holders.now }
{
    holders_within(n, &[lists::HIGHEST; lists::PLACES], holders)
}

// Any number, and a list of any length and contents.
#[tactic(auto, unfolding(crate::specs::Searchable::searchable))]
pub fn is_searchable(n: u16, holders: &[u16]) -> bool
    ensures { result ≡ searchable n holders.now }
{
    n <= lists::GATEWAYS && n as usize <= holders.len() && is_within(n, holders)
}

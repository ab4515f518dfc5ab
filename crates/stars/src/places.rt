// The place of each gateway in the order.
ghost use Rattle.std.specs.Prelude.{◌≡◌, ◌≤◌};
ghost use Rattle.packing.specs.Plant.{GATEWAYS, at};
ghost use Rattle.stars.specs.Stars.{place_of};
ghost use Rattle.stars.specs.Pre.{Table};

use lists::fill::with_value;
use lists::{PLACES, entry, put};

// One pass from the last place to the first: where a number stands twice, its first place is written last. Who does not stand in the order has place n.
pub(crate) fn places_of(n: u16, order: &[u16], places: &mut [u16; PLACES])
    requires { n ≤ GATEWAYS }
    ensures { Table n (place_of n (at order.now)) places.new }
{
    with_value(n as usize, n, places);
    for i in (0..n).rev() {
        let v = entry(order, i);
        put(places, v, i);
    }
}

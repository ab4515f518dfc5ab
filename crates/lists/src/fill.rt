// Writes the front of a lent list, and nothing past it.
// The loops here and in the crates above write by index: over list[..n].iter_mut().enumerate() they would say the same in more words, since the value goes by the index.
ghost use Rattle.std.specs.Prelude.{◌≡◌, ◌≤◌, ◌++◌, drop, length, replicate};
ghost use Rattle.packing.specs.Plant.{GATEWAYS};
ghost use Rattle.packing.specs.Lists.{written};
ghost use Rattle.packing.specs.Orders.{up_to};

// 0, 1, .., n - 1
pub fn with_places(n: usize, list: &mut [u16])
    requires { (n ≤ GATEWAYS) × (n ≤ length list.old) }
    ensures { list.new ≡ written n (up_to n) list.old }
{
    for i in 0..n {
        list[i] = i as u16;
    }
}

// one value in each of the first n places, at any type: fill would ask that a clone of it cannot fail
pub fn with_value<T: Copy>(n: usize, value: T, list: &mut [T])
    requires { n ≤ length list.old }
    ensures { list.new ≡ replicate n value ++ drop n list.old }
{
    for place in 0..n {
        list[place] = value;
    }
}

// another list's numbers
#[tactic(auto, unfolding(packing::specs::Lists::written))]
pub fn with_list(numbers: &[u16], list: &mut [u16])
    requires { length numbers.now ≤ length list.old }
    ensures { list.new ≡ written (length numbers.now) numbers.now list.old }
{
    list[..numbers.len()].copy_from_slice(numbers);
}

// Taking back the marks of a search, of those that it noted.
ghost use Rattle.std.specs.Prelude.{◌≡◌, ◌<◌, length, set};
ghost use Rattle.packing.specs.Plant.{NONE};
ghost use Rattle.search.specs.Noted.{taken_back, AllMarked};

// Takes back the mark of u.
fn unmark(u: u16, from: &mut [u16])
    requires { u < length from.old }
    ensures { from.new ≡ set from.old u NONE }
{
    from[u as usize] = lists::NONE;
}

// Takes back the marks of those noted, the last of them first.
pub(crate) fn take_back(noted: &[u16], from: &mut [u16])
    requires { AllMarked noted.now from.old }
    ensures { from.new ≡ taken_back (length noted.now) noted.now from.old }
{
    for u in noted.iter().rev() {
        unmark(*u, from);
    }
}

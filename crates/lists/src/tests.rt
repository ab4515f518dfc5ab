// Whether one is a member of another, by a list of leaders.
ghost use Rattle.std.specs.Prelude.{◌≡◌};
ghost use Rattle.packing.specs.Plant.{at};
ghost use Rattle.packing.specs.Grouping.{follows};

// Whether w has u's number as its entry and is not u itself.
pub fn is_member(list: &[u16], u: u16, w: u16) -> bool
    ensures { result ≡ follows (at list.now) u w }
{
    crate::entry(list, w) == u && w != u
}

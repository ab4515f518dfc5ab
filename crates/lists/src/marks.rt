// Lists with a place for each gateway, to mark in. Marks are u16s and no bools: stars::leaders keeps them in the list lent for the leaders, and linked_entries (sound) and Treed (stars), on which theorems rest, are of numbers.
ghost use Rattle.std.specs.Prelude.{◌≡◌, cond, eqb, set};
ghost use Rattle.packing.specs.Plant.{at};

// Whether v is marked.
pub fn is_marked(list: &[u16], v: u16) -> bool
    ensures { result ≡ eqb (at list.now v) 1 }
{
    crate::entry(list, v) == 1
}

// Marks v, where yes is true and v has a place.
pub fn mark_if(yes: bool, list: &mut [u16], v: u16)
    ensures { list.new ≡ cond yes (set list.old v 1) list.old }
{
    if yes {
        crate::put(list, v, 1);
    }
}

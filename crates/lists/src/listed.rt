// Those of the gateways that a test holds of.
ghost use Rattle.std.specs.Prelude.{ℕ, ◌<◌, length};
ghost use Rattle.lists.specs.Listed.{ListsThem, Room};

// Writes them to the front of out, ascending, and returns their number.
pub fn write_them<F: Fn(u16) -> bool>(n: u16, test: F, out: &mut [u16]) -> u16
    requires asked { (u : ℕ) → u < n → F.pre test u }
    requires room { Room (F.post test) n (length out.old) }
    ensures { ListsThem (F.post test) n out.old out.new result }
{
    let mut count: u16 = 0;
    for u in 0..n {
        if test(u) {
            out[count as usize] = u;
            count += 1;
        }
    }
    count
}

// A byte for each gateway.
ghost use Rattle.std.specs.Prelude.{◌≡◌, ◌≤◌, length};
ghost use Rattle.packing.specs.Lists.{list_of, written};
ghost use Rattle.search.specs.ChokePre.{seen_byte};

// 1 for each that is seen, else 0.
pub fn write_seen(from: &[u16], out: &mut [u8])
    requires { length from.now ≤ length out.old }
    ensures { out.new ≡ written (length from.now) (list_of (length from.now) (seen_byte from.now)) out.old }
{
    for (v, mark) in from.iter().enumerate() {
        out[v] = u8::from(*mark != lists::NONE);
    }
}

// Writes what a file says into the front of a lent list, and nothing past it.
ghost use Rattle.std.specs.Prelude.{◌≡◌, ◌+◌, ◌*◌, ◌≤◌, length};
ghost use Rattle.packing.specs.Count.{all};
ghost use Rattle.packing.specs.Lists.{list_of, written};
ghost use Rattle.plant_file.specs.PlantFile.{number, file_n, file_m, file_links, file_order, file_limits, limit_byte, limit_allowed, limits_allowed};
ghost use Rattle.plant_file.specs.Pre.{pair_limits};

use crate::bytes::{number_at, number_in};
use crate::limits::{effective, is_allowed};
use crate::reader::Reader;
use lists::byte;

// The file's links.
pub(crate) fn with_links(file: &[u8], links: &mut [u16])
    requires { 2 * file_m file.now ≤ length links.old }
    ensures { links.new ≡ written (2 * file_m file.now) (file_links file.now) links.old }
{
    for (i, (a, b)) in Reader::new(file, 0).enumerate() {
        links[2 * i] = a;
        links[2 * i + 1] = b;
    }
}

// n numbers of the file from a place on, where all their bytes are.
fn with_numbers(file: &[u8], start: usize, n: usize, out: &mut [u16])
    requires { (start + 2 * n ≤ length file.now) × (n ≤ length out.old) }
    ensures { out.new ≡ written n (list_of n (λ i. number file.now (start + 2 * i))) out.old }
{
    for i in 0..n {
        out[i] = number_in(file, start + 2 * i);
    }
}

// The file's order. One test for all its bytes where they are there: a test for each takes a fifth more of a small plant's time.
pub(crate) fn with_order(file: &[u8], order: &mut [u16])
    requires { file_n file.now ≤ length order.old }
    ensures { order.new ≡ written (file_n file.now) (file_order file.now) order.old }
{
    let n = crate::gateways(file) as usize;
    let start = 10 + 4 * (crate::link_count(file) as usize);
    if start + 2 * n <= file.len() {
        with_numbers(file, start, n, order);
        return;
    }
    for i in 0..n {
        order[i] = number_at(file, start + 2 * i);
    }
}

// The limits of version 2, by the pairs of bytes behind the order; and whether each limit byte is allowed. One pass does both. Where the pairs begin is reckoned once: by limit_of, for each, a plant of 256 gateways takes a sixth more time.
fn with_pairs(file: &[u8], limits: &mut [u8]) -> bool
    requires { file_n file.now ≤ length limits.old }
    ensures answer { result ≡ all (file_n file.now) (λ v. limit_allowed (limit_byte file.now v)) }
    ensures limits { limits.new ≡ written (file_n file.now) (pair_limits file.now) limits.old }
{
    let t = crate::limit(file);
    let n = crate::gateways(file) as usize;
    let pairs = 10 + 4 * (crate::link_count(file) as usize) + 2 * n;
    let mut ok = true;
    for (v, limit) in limits[..n].iter_mut().enumerate() {
        let kind = byte(file, pairs + 2 * v);
        let written = byte(file, pairs + 2 * v + 1);
        *limit = effective(t, kind, written);
        ok &= is_allowed(written);
    }
    ok
}

// The gateways' limits, and whether each limit byte is allowed: version 1 has none. A bool and no Result: they are written either way, and load, which has checked the file, asks for nothing else.
pub(crate) fn with_limits(file: &[u8], limits: &mut [u8]) -> bool
    requires { file_n file.now ≤ length limits.old }
    ensures answer { result ≡ limits_allowed file.now }
    ensures limits { limits.new ≡ written (file_n file.now) (file_limits file.now) limits.old }
{
    if crate::has_pairs(file) {
        return with_pairs(file, limits);
    }
    let n = crate::gateways(file) as usize;
    lists::fill::with_value(n, crate::limit(file), limits);
    true
}

// A plan as bytes, and two sets of gateways; and a leader list from bytes.
ghost use Rattle.std.specs.Prelude.{◌≡◌, ◌+◌, ◌*◌, ◌≤◌, ◌++◌, length, take};
ghost use Rattle.std.proofs.lemmas.List.Edits.{sets};
ghost use Rattle.packing.specs.Lists.{list_of, written};
ghost use Rattle.packing.specs.Plant.{GATEWAYS};
ghost use Rattle.plant_file.specs.PlantFile.{number};
ghost use Rattle.plant_file.specs.Encode.{low_first};
ghost use Rattle.daemon.specs.Groups.{four_bytes, bytes_for};
ghost use Rattle.daemon.specs.Why.{set_bytes};
ghost use Rattle.daemon.specs.Pre.{Plannable, Settable, entries_read};

// Bytes from a place on.
fn with_bytes(bytes: &[u8], start: usize, out: &mut [u8])
    requires { start + length bytes.now ≤ length out.old }
    ensures { out.new ≡ sets out.old start bytes.now }
{
    out[start..start + bytes.len()].copy_from_slice(bytes);
}

// Numbers, two bytes each, from a place on.
fn with_numbers(numbers: &[u16], start: usize, out: &mut [u8])
    requires { start + 2 * length numbers.now ≤ length out.old }
    ensures { out.new ≡ sets out.old start (low_first numbers.now) }
{
    for (i, x) in numbers.iter().enumerate() {
        with_bytes(&x.to_le_bytes(), start + 2 * i, out);
    }
}

// The first n of the leaders, then the first n choke bytes, then the number moved.
pub(crate) fn with_plan(n: usize, leaders: &[u16], choke: &[u8], moved: u32, out: &mut [u8])
    requires { Plannable n leaders.now choke.now out.old }
    ensures { out.new ≡ written (bytes_for n) (low_first (take n leaders.now) ++ take n choke.now ++ four_bytes moved) out.old }
{
    with_numbers(&leaders[..n], 0, out);
    with_bytes(&choke[..n], 2 * n, out);
    with_bytes(&moved.to_le_bytes(), 3 * n, out);
}

// How many gateways each set has, then the first set, then the second.
pub(crate) fn with_sets(first: &[u16], second: &[u16], out: &mut [u8])
    requires { Settable first.now second.now out.old }
    ensures { out.new ≡ written (length (set_bytes first.now second.now)) (set_bytes first.now second.now) out.old }
{
    let counts = [first.len() as u16, second.len() as u16];
    with_numbers(&counts, 0, out);
    with_numbers(first, 4, out);
    with_numbers(second, 4 + 2 * first.len(), out);
}

// How many entries of a leader list with so many bytes are read: no plant has more than 1,024.
pub(crate) fn entry_count(len: usize) -> usize
    ensures { result ≡ entries_read len }
{
    (len / 2).min(lists::PLACES)
}

// The first entries of a leader list, two bytes each, over the front of a list.
pub(crate) fn with_entries(bytes: &[u8], count: usize, out: &mut [u16])
    requires { (count ≤ length out.old) × (count ≤ GATEWAYS) }
    ensures { out.new ≡ written count (list_of count (λ i. number bytes.now (2 * i))) out.old }
{
    for i in 0..count {
        out[i] = plant_file::bytes::number_at(bytes, 2 * i);
    }
}

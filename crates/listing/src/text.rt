// The text for a file's bytes: its listing, or its refusal.
ghost use Rattle.std.specs.Prelude.{◌≡◌, length};
ghost use Rattle.std.proofs.lemmas.List.Edits.{sets};
ghost use Rattle.listing.specs.Listed.{file_text};

// The longest text has so many bytes.
pub(crate) const LONGEST: usize = 16437;

// Writes the text from the front of out on and returns its length.
pub(crate) fn write(file: &[u8], out: &mut [u8]) -> usize
    ensures count { result ≡ length (file_text file.now) }
    ensures out { out.new ≡ sets out.old 0 (file_text file.now) }
{
    let mut leaders = [0u16; lists::PLACES];
    let mut choke = [0u8; lists::PLACES];
    match plan::plan_lists(file, &mut leaders, &mut choke) {
        Ok(()) => report::listing(
            plant_file::gateways(file),
            plant_file::limit(file),
            &leaders,
            &choke,
            out,
        ),
        Err(refusal) => report::refused(refusal.number() as u16, out),
    }
}

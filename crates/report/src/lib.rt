// The listing's text (01, "The plant file and the listing").
#![tactic(auto)]

mod lines;
mod put;

ghost use Rattle.std.specs.Prelude.{◌≡◌, length};
ghost use Rattle.std.proofs.lemmas.List.Edits.{sets};
ghost use Rattle.report.specs.Text as text;

use crate::put::Text;

// Writes the listing from the front of out on, as far as out goes, and returns the listing's length: where that is above out's, out was too short.
// Entries past a list's end count as 0.
pub fn listing(n: u16, t: u8, leaders: &[u16], choke: &[u8], out: &mut [u8]) -> usize
    ensures count { result ≡ length (text.listing n t leaders.now choke.now) }
    ensures out { out.new ≡ sets out.old 0 (text.listing n t leaders.now choke.now) }
{
    let mut text = Text { out, place: 0 };
    text.one(n, t, leaders);
    text.leads(n, leaders);
    text.line(b"alone:", n, |v| lists::entry(leaders, v) == lists::NONE);
    text.line(b"choke:", n, |v| lists::byte(choke, usize::from(v)) == 1);
    text.place
}

// The same for a refused file's one line, by the number that it shows.
pub fn refused(e: u16, out: &mut [u8]) -> usize
    ensures count { result ≡ length (text.refused_line e) }
    ensures out { out.new ≡ sets out.old 0 (text.refused_line e) }
{
    let mut text = Text { out, place: 0 };
    text.field(b"refused", e);
    text.byte(b'\n');
    text.place
}

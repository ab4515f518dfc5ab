// The listing's lines.
ghost use Rattle.std.specs.Prelude.{◌≡◌, ℕ, Bool};
ghost use Rattle.packing.specs.Lists.{list_where};
ghost use Rattle.report.specs.Text as text;
ghost use Rattle.report.specs.Pre.{Near, Put, Tells};

use crate::put::Text;

// The number covered: all but those alone.
fn covered(n: u16, leaders: &[u16]) -> u16
    ensures { result ≡ text.covered_count n leaders.now }
{
    n - lists::counts::count_of(n, leaders, lists::NONE)
}

impl<'a> Text<'a> {
    // The numbers of the gateways that a line lists.
    fn numbers<F: Fn(u16) -> bool + Drop>(&mut self, n: u16, is_listed: F)
        requires call { F.IsAlwaysCallable is_listed }
        requires near { (p : ℕ → Bool) × Tells n (F.post is_listed) p × Near self.old (text.spaced (list_where n p)) }
        ensures { (p : ℕ → Bool) → Tells n (F.post is_listed) p → Put (text.spaced (list_where n p)) self.old self.new }
    {
        for v in 0..n {
            if is_listed(v) {
                self.listed(v);
            }
        }
    }

    // A word, these numbers, and the line feed.
    pub(crate) fn line<F: Fn(u16) -> bool + Drop>(&mut self, word: &[u8], n: u16, is_listed: F)
        requires call { F.IsAlwaysCallable is_listed }
        requires near { (p : ℕ → Bool) × Tells n (F.post is_listed) p × Near self.old (text.line word.now (list_where n p)) }
        ensures { (p : ℕ → Bool) → Tells n (F.post is_listed) p → Put (text.line word.now (list_where n p)) self.old self.new }
    {
        self.bytes(word);
        self.numbers(n, is_listed);
        self.byte(b'\n');
    }

    // gateways N limit T covered C
    pub(crate) fn one(&mut self, n: u16, t: u8, leaders: &[u16])
        requires { Near self.old (text.line_one n t leaders.now) }
        ensures { Put (text.line_one n t leaders.now) self.old self.new }
    {
        self.field(b"gateways", n);
        self.field(b" limit", u16::from(t));
        self.field(b" covered", covered(n, leaders));
        self.byte(b'\n');
    }

    // lead U: members, if u leads
    fn lead(&mut self, n: u16, leaders: &[u16], u: u16)
        requires { Near self.old (text.lead_line n leaders.now u) }
        ensures { Put (text.lead_line n leaders.now u) self.old self.new }
    {
        if lists::entry(leaders, u) == u {
            self.field(b"lead", u);
            self.line(b":", n, |v| lists::tests::is_member(leaders, u, v));
        }
    }

    // a line a group
    pub(crate) fn leads(&mut self, n: u16, leaders: &[u16])
        requires { Near self.old (text.lead_lines n n leaders.now) }
        ensures { Put (text.lead_lines n n leaders.now) self.old self.new }
    {
        for u in 0..n {
            self.lead(n, leaders, u);
        }
    }
}

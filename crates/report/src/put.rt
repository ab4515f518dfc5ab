// A text that is written into a lent list from a place on. Each method writes its part and moves the place on. What would stand past the list's end is left out.
ghost use Rattle.std.specs.Prelude.{[], ◌∷◌};
ghost use Rattle.report.specs.Text.{digits, spaced, field};
ghost use Rattle.report.specs.Pre.{Near, Put};

#[derive(Drop)]
pub(crate) struct Text<'a> {
    pub(crate) out: &'a mut [u8],
    pub(crate) place: usize,
}

impl<'a> Text<'a> {
    pub(crate) fn byte(&mut self, b: u8)
        requires { Near self.old (b ∷ []) }
        ensures { Put (b ∷ []) self.old self.new }
    {
        if self.place < self.out.len() {
            self.out[self.place] = b;
        }
        self.place += 1;
    }

    pub(crate) fn bytes(&mut self, bytes: &[u8])
        requires { Near self.old bytes.now }
        ensures { Put bytes.now self.old self.new }
    {
        for b in bytes {
            self.byte(*b);
        }
    }

    // A number in decimal.
    fn number(&mut self, x: u16)
        requires { Near self.old (digits x) }
        ensures { Put (digits x) self.old self.new }
    {
        let mut buffer = itoa::Buffer::new();
        self.bytes(buffer.format(x).as_bytes());
    }

    // A number listed: with one space before it.
    pub(crate) fn listed(&mut self, x: u16)
        requires { Near self.old (spaced (x ∷ [])) }
        ensures { Put (spaced (x ∷ [])) self.old self.new }
    {
        self.byte(b' ');
        self.number(x);
    }

    // A word, and a number listed after it.
    pub(crate) fn field(&mut self, word: &[u8], x: u16)
        requires { Near self.old (field word.now x) }
        ensures { Put (field word.now x) self.old self.new }
    {
        self.bytes(word);
        self.listed(x);
    }
}

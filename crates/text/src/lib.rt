// Text put into an area of bytes, from its front on.
#![tactic(auto)]

ghost use Rattle.std.specs.Prelude.{◌≡◌, ◌≤◌, length};
ghost use Rattle.text.specs.Ascii.{ascii};
ghost use Rattle.text.specs.Decimal.{decimal, next_number, named};

// An area, and how many bytes have been put in. Not a `fmt::Write`, since a text that fits is put in without fail.
#[derive(Drop)]
pub struct Text<'a> {
    pub area: &'a mut [u8],
    pub len: usize,
    pub ghost inside: { len ≤ length area.now },
}

impl<'a> Text<'a> {
    ghost use Rattle.text.specs.Put.{Fits, Put};

    // Nothing yet.
    pub fn new(area: &'a mut [u8]) -> Text<'a>
        ensures area { result.area.now ≡ area.old }
        ensures len { result.len ≡ 0 }
        ensures same_reference { result.area.ghost_name ≡ area.entry.ghost_name }
    {
        Text { area, len: 0 }
    }

    // Some bytes, as they stand.
    pub fn put(&mut self, bytes: &[u8])
        requires { Fits self.old bytes.now }
        ensures { Put self.old bytes.now self.new }
    {
        let end = self.len + bytes.len();
        self.area[self.len..end].copy_from_slice(bytes);
        self.len = end;
    }

    // A number in base ten.
    pub fn put_number(&mut self, n: usize)
        requires { Fits self.old (decimal n) }
        ensures { Put self.old (decimal n) self.new }
    {
        let mut digits = [0u8; 20];
        let count = io::decimal(n as u64, &mut digits);
        self.put(&digits[..count]);
    }

    // A number behind a space.
    pub fn put_next(&mut self, n: usize)
        requires { Fits self.old (next_number n) }
        ensures { Put self.old (next_number n) self.new }
    {
        self.put(b" ");
        self.put_number(n);
    }

    // A word, then a number behind a space.
    pub fn put_named(&mut self, word: &[u8], n: usize)
        requires { Fits self.old (named word.now n) }
        ensures { Put self.old (named word.now n) self.new }
    {
        self.put(word);
        self.put_next(n);
    }

    // The end of a line.
    pub fn put_line_end(&mut self)
        requires { Fits self.old (ascii "\n") }
        ensures { Put self.old (ascii "\n") self.new }
    {
        self.put(b"\n");
    }
}

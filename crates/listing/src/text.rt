// Bytes, decimal numbers and words, written into a lent buffer. Not by `Display`: of what `fmt` writes a proof knows nothing, and every byte of
// a line is promised.
ghost use Rattle.std.specs.Prelude.{[], ◌∷◌, ◌≡◌, ◌%◌, ◌+◌, ◌<◌, ◌≤◌, length};
ghost use Rattle.listing.specs.Text.{blank, decimal, digit_code};
ghost use Rattle.listing.specs.Written.{Put};

// A lent buffer, and the place past what is written into it. A byte that has no room is left out and counted all the same, so
// that the place is always past the whole text.
#[derive(Drop)]
pub struct Writer<'a> {
    out: &'a mut [u8],
    pub at: usize,
}

impl<'a> Writer<'a> {
    // Writing begins at the buffer's front.
    pub fn new(out: &'a mut [u8]) -> Writer<'a>
        ensures { (result.out.ghost_name ≡ out.entry.ghost_name) × (result.out.now ≡ out.old) × (result.at ≡ 0) }
    {
        Writer { out, at: 0 }
    }

    // One byte.
    pub fn put(&mut self, b: u8)
        requires { self.old.at < 4294967296 }
        ensures { Put self.old self.new (b ∷ []) }
    {
        if self.at < self.out.len() {
            self.out[self.at] = b;
        }
        self.at += 1;
    }

    // Bytes, one after the other.
    pub fn put_bytes(&mut self, text: &[u8])
        requires { self.old.at + length text.now ≤ 4294967296 }
        ensures { Put self.old self.new text.now }
    {
        for b in text {
            self.put(*b);
        }
    }

    // A number in decimal.
    fn put_decimal(&mut self, n: usize)
        requires { self.old.at + 20 < 4294967296 }
        ensures { Put self.old self.new (decimal n) × (self.new.at ≤ self.old.at + 20) }
    {
        if n < 10 {
            return self.put(last_digit(n));
        }
        self.put_decimal(n / 10);
        self.put(last_digit(n));
    }

    // A blank and a number.
    pub fn put_word(&mut self, n: usize)
        requires { self.old.at + 21 < 4294967296 }
        ensures { Put self.old self.new (blank ∷ decimal n) × (self.new.at ≤ self.old.at + 21) × (n < 100000 → self.new.at ≤ self.old.at + 6) }
    {
        self.put(b' ');
        self.put_decimal(n);
    }
}

// The last digit of a number.
fn last_digit(n: usize) -> u8
    ensures { result ≡ digit_code (n % 10) }
{
    48 + (n % 10) as u8
}

// Text put into a borrowed buffer: words, and numbers as digits.
#![tactic(auto)]

ghost use Rattle.std.specs.Prelude.{◌≡◌, ◌+◌, ◌-◌, ◌<◌, ◌≤◌, length};
ghost use Rattle.text.specs.Digits.{digit as digit_of, digits, places_of, decimal};
ghost use Rattle.text.specs.Promises.{Puts};

// A buffer that text is put into, and the offset that the next text goes to.
#[derive(Drop)]
pub struct Writer<'a> {
    pub out: &'a mut [u8],
    pub at: usize,
}

impl<'a> Writer<'a> {
    // A writer at the buffer's start.
    pub fn new(out: &'a mut [u8]) -> Writer<'a>
        ensures same { result.out.ghost_name ≡ out.entry.ghost_name }
        ensures out { result.out.now ≡ out.old }
        ensures at { result.at ≡ 0 }
    {
        Writer { out, at: 0 }
    }

    // A loop, since `copy_from_slice` calls memmove: a host without memmove can link the archive.
    pub fn put_word(&mut self, word: &[u8])
        requires { self.old.at + length word.now ≤ length self.old.out.now }
        ensures { Puts self.old self.new word.now }
    {
        for i in 0..word.len() {
            self.out[self.at + i] = word[i];
        }
        self.at += word.len();
    }

    // Puts the last digits of n in a base, as many as the width. By index: of what is written through
    // `iter_mut().rev()` a proof learns nothing.
    pub fn put_digits(&mut self, n: u64, base: u64, width: usize)
        requires base_nonzero { 0 < base }
        requires base_bound { base ≤ 16 }
        requires width_in_bounds { self.old.at + width ≤ length self.old.out.now }
        ensures { Puts self.old self.new (digits base width n) }
    {
        let mut rest = n;
        for i in (0..width).rev() {
            self.out[self.at + i] = digit(rest % base);
            rest /= base;
        }
        self.at += width;
    }

    // Puts n in base ten.
    pub fn put_decimal(&mut self, n: u64)
        requires { self.old.at + length (decimal n) ≤ length self.old.out.now }
        ensures { Puts self.old self.new (decimal n) }
    {
        self.put_digits(n, 10, places(n, 10));
    }
}

// The digit's code.
fn digit(d: u64) -> u8
    requires { d < 16 }
    ensures { result ≡ digit_of d }
{
    if d < 10 {
        b'0' + d as u8
    } else {
        b'a' - 10 + d as u8
    }
}

// How many digits n has in a base.
pub fn places(n: u64, base: u64) -> usize
    requires { 2 ≤ base }
    ensures { result ≡ places_of base n }
{
    if n == 0 { 1 } else { n.ilog(base) as usize + 1 }
}

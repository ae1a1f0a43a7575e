// Fields of a sheet: little-endian numbers of up to 8 bytes, the offset that reading has reached, and the checks made on the
// way.
#![tactic(auto)]

ghost use Rattle.std.specs.Prelude.{◌≡◌, ◌+◌, ◌≤◌, length, Ok, ℕ, Bool, IfOk, ◌^◌, ◌<◌};
ghost use Rattle.sheet_field.specs.Field.{little, field_at, Answers, tested_at, code_at, count_at, words_from};
ghost use Rattle.sheet_field.specs.Reads.{Reads};

use refusal::{Fault, Refusal};

// The number in the N bytes from an offset on, below 256 to the N.
fn bounded<const N: usize>(s: &[u8], at: usize) -> u64
    requires width { N ≤ 8 }
    requires inside { at + N ≤ length s.now }
    ensures value { result ≡ little s.now at N }
    ensures small { result < 256 ^ N }
{
    let mut bytes = [0; 8];
    bytes[..N].copy_from_slice(&s[at..at + N]);
    u64::from_le_bytes(bytes)
}

// The number in the N bytes from an offset on.
pub fn number<const N: usize>(s: &[u8], at: usize) -> u64
    requires width { N ≤ 8 }
    requires inside { at + N ≤ length s.now }
    ensures { result ≡ little s.now at N }
{
    bounded::<N>(s, at)
}

// The bytes of a sheet, and the offset that reading has come to. After a refusal that offset means nothing.
#[derive(Drop)]
pub struct Reader<'a> {
    pub bytes: &'a [u8],
    pub at: usize,
}

impl<'a> Reader<'a> {
    pub fn new(bytes: &'a [u8], at: usize) -> Reader<'a>
        ensures bytes { result.bytes.now ≡ bytes.entry.now }
        ensures at { result.at ≡ at }
    {
        Reader { bytes, at }
    }

    // A field of N bytes.
    pub fn take_field<const N: usize>(&mut self) -> Result<u64, Refusal>
        requires { N ≤ 8 }
        ensures reads { Reads self.old self.new result (field_at N self.old.bytes.now (Ok self.old.at)).next }
        ensures value { IfOk result (λ x. x ≡ (field_at N self.old.bytes.now (Ok self.old.at)).value) }
    {
        let at = self.at;
        if at <= self.bytes.len() && N <= self.bytes.len() - at {
            self.at = at + N;
            Ok(number::<N>(self.bytes, at))
        } else {
            Err(Fault::Ends.at(at))
        }
    }

    // The number in the next N bytes, which are there.
    pub fn take_number<const N: usize>(&mut self) -> u64
        requires width { N ≤ 8 }
        requires inside { self.old.at + N ≤ length self.old.bytes.now }
        ensures value { result ≡ little self.old.bytes.now self.old.at N }
        ensures small { result < 256 ^ N }
        ensures same { self.new.bytes.now ≡ self.old.bytes.now }
        ensures at { self.new.at ≡ self.old.at + N }
    {
        let from = self.at;
        self.at = from + N;
        bounded::<N>(self.bytes, from)
    }

    // A field of N bytes that passes the check.
    pub fn take_checked<const N: usize, F: Fn(u64) -> bool>(
        &mut self,
        fault: Fault,
        check: F,
    ) -> Result<u64, Refusal>
        requires width { N ≤ 8 }
        requires callable { F.IsAlwaysCallable check }
        ensures reads { (test : ℕ → Bool) → Answers (F.post check) test → Reads self.old self.new result (tested_at N test fault self.old.bytes.now (Ok self.old.at)).next }
        ensures value { (test : ℕ → Bool) → Answers (F.post check) test → IfOk result (λ x. x ≡ (tested_at N test fault self.old.bytes.now (Ok self.old.at)).value) }
    {
        let at = self.at;
        let x = self.take_field::<N>()?;
        if check(x) { Ok(x) } else { Err(fault.at(at)) }
    }

    // A code byte below its table's end.
    pub fn code(&mut self, limit: u64) -> Result<u64, Refusal>
        ensures reads { Reads self.old self.new result (code_at limit self.old.bytes.now (Ok self.old.at)).next }
        ensures value { IfOk result (λ x. x ≡ (code_at limit self.old.bytes.now (Ok self.old.at)).value) }
    {
        self.take_checked::<1, _>(Fault::Code, |x| x < limit)
    }

    // A count from least to most.
    pub fn count(&mut self, least: u64, most: u64) -> Result<u64, Refusal>
        ensures reads { Reads self.old self.new result (count_at least most self.old.bytes.now (Ok self.old.at)).next }
        ensures value { IfOk result (λ x. x ≡ (count_at least most self.old.bytes.now (Ok self.old.at)).value) }
    {
        self.take_checked::<2, _>(Fault::Count, |x| (least <= x) & (x <= most))
    }

    // n numbers of 8 bytes each, or the first that is not whole.
    pub fn take_words(&mut self, n: u64) -> Result<(), Refusal>
        ensures { Reads self.old self.new result (words_from self.old.bytes.now (Ok self.old.at) n) }
    {
        let at = self.at;
        let room = self.bytes.len().saturating_sub(at) / 8;
        if n <= room as u64 {
            self.at = at + 8 * n as usize;
            Ok(())
        } else {
            Err(Fault::Ends.at(at + 8 * room))
        }
    }
}

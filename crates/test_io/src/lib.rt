// For test programs: frames from an input, the numbers in them, and words and numbers to an output. A frame is its length in 4
// bytes and that many bytes; every number has its lowest byte first.
#![tactic(auto)]

ghost use Rattle.std.specs.Prelude.{◌≡◌, ◌≤◌, length, is_err, IfOk};
ghost use Rattle.test_io.specs.Frame.{Fits};

use std::fmt;
use std::io::Read;

// Why a program ends before every frame is answered.
#[derive(Clone, Copy, PartialEq, Eq, Debug)]
pub enum Early {
    // the input ends inside a frame, or a frame inside what it must have
    Cut,
    // a frame is longer than the buffer for it, or than what it must have
    TooLong,
    TooManyValues,
    // the frame's first byte is no operation's number
    NoOperation,
    // the system did not give the input, or did not take the output
    Unread,
    Unwritten,
}

impl fmt::Display for Early {
    fn fmt<W: fmt::Write>(&self, f: &mut fmt::Formatter<W>) -> fmt::Result {
        f.write_str(match self {
            Early::Cut => "the input is cut",
            Early::TooLong => "a frame is too long",
            Early::TooManyValues => "a frame has too many values",
            Early::NoOperation => "a frame names no operation",
            Early::Unread => "the input cannot be read",
            Early::Unwritten => "the output cannot be written",
        })
    }
}

pub fn word(output: &impl Print, text: &[u8]) -> Result<(), Early> {
    output.write_all(text).map_err(|_| Early::Unwritten)
}

// The first n bytes of the text, which has as many.
pub fn start(output: &impl Print, text: &[u8], n: usize) -> Result<(), Early> {
    word(output, text.get(..n).ok_or(Early::Unwritten)?)
}

pub fn digits(output: &impl Print, n: u64) -> Result<(), Early> {
    output.print(n).map_err(|_| Early::Unwritten)
}

// A space and the number.
pub fn number(output: &impl Print, n: u64) -> Result<(), Early> {
    word(output, b" ")?;
    digits(output, n)
}

// Whether a program ends too early; if it does, says why.
pub fn is_early(errors: &impl Print, end: Result<(), Early>) -> bool
    ensures { result ≡ is_err end }
{
    match end {
        Ok(()) => false,
        Err(early) => {
            let _ = errors.println(early);
            true
        }
    }
}

// A buffer for the longest frame that is read. It is not made in place: there the check computes the array, and runs out of stack.
pub fn room() -> [u8; 1048576]
    ensures { 1048576 ≡ length result }
{
    [0; 1048576]
}

// The first bytes, and 0 past the end.
fn first<const N: usize>(s: &[u8]) -> [u8; N]
    requires { N ≤ 8 }
{
    let mut bytes = [0; N];
    let n = s.len().min(N);
    bytes[..n].copy_from_slice(&s[..n]);
    bytes
}

// The first four bytes, as a number.
pub fn four(s: &[u8]) -> u32 {
    u32::from_le_bytes(first(s))
}

// The first eight bytes.
pub fn eight(s: &[u8]) -> u64 {
    u64::from_le_bytes(first(s))
}

// Reads until the buffer is full, the input ends or a read fails, and gives how many bytes it put at the buffer's start.
fn read_full<R: Read>(input: &mut R, buf: &mut [u8]) -> usize
    ensures { result ≤ length buf.new }
{
    let mut had: usize = 0;
    // each step is as long as what was read: no range or chunks have these steps
    while had < buf.len() {
        match input.read(&mut buf[had..]) {
            Ok(0) | Err(_) => return had,
            Ok(n) => had += n,
        }
    }
    had
}

// Reads a frame of that length to the start of the buffer.
fn body<R: Read>(input: &mut R, buf: &mut [u8], n: usize) -> Result<usize, Early>
    ensures { IfOk result (λ n. n ≤ length buf.new) }
{
    let room = buf.get_mut(..n).ok_or(Early::TooLong)?;
    if read_full(input, room) < n {
        return Err(Early::Cut);
    }
    Ok(n)
}

// Fills the head of a frame, unless the input ends before its first byte: whether it was filled.
fn fill<R: Read>(input: &mut R, head: &mut [u8]) -> Result<bool, Early> {
    let n = input.read(head).map_err(|_| Early::Unread)?;
    if n == 0 {
        return Ok(false);
    }
    if read_full(input, &mut head[n..]) < head.len() - n {
        return Err(Early::Cut);
    }
    Ok(true)
}

// The length of the next frame, which then stands at the start of the buffer, or none at the input's end.
pub fn next_frame<R: Read>(input: &mut R, buf: &mut [u8]) -> Result<Option<usize>, Early>
    ensures { Fits result (length buf.new) }
{
    let mut head = [0u8; 4];
    if !fill(input, &mut head)? {
        return Ok(None);
    }
    Ok(Some(body(input, buf, four(&head) as usize)?))
}

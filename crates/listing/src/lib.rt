// The listing program: a sheet from its input, its branches or the refusal as text to its output. Input and output are readers and writers; the crate
// `listing_program` hands in those of the system.
#![tactic(auto)]

ghost use Rattle.std.specs.Prelude.{◌≡◌, ◌≤◌, length, IfOk};
ghost use Rattle.std.specs.Io.KnownBytes.{Keeps};
ghost use Rattle.text.specs.Promises.{Written};
ghost use Rattle.listing.specs.Program.{printed};
ghost use Rattle.listing.specs.Promises.{Ended, status_of};
ghost use Rattle.listing.specs.Streams.{Takes, Lists, Answers};

use refusal::Fault;
use std::io::{Read, Write};
use std::{fmt, io};

// Why the text was not written. The number is the exit status. What is displayed is the whole line, so that one write puts it out.
#[derive(Clone, Copy, PartialEq, Eq, Debug)]
enum Failure {
    Unread = 1,
    Unwritten,
}

impl fmt::Display for Failure {
    fn fmt<W: fmt::Write>(&self, f: &mut fmt::Formatter<W>) -> fmt::Result {
        f.write_str(match self {
            Failure::Unread => "listing: standard input cannot be read\n",
            Failure::Unwritten => "listing: standard output cannot be written\n",
        })
    }
}

// Reads the input to its end, or until the buffer is full, and gives how many bytes it put at the buffer's start.
fn read_input<R: Read>(input: &mut R, room: &mut [u8]) -> io::Result<usize>
    ensures within { IfOk result (λ n. n ≤ length room.new) }
    ensures takes { Takes result (R.remaining input.old) (R.remaining input.new) room.new }
{
    let mut had: usize = 0;
    // each step is as long as what was read: no range or chunks have these steps
    while had < room.len() {
        let n = input.read(&mut room[had..])?;
        if n == 0 {
            return Ok(had);
        }
        had += n;
    }
    Ok(had)
}

// Puts what the program writes for a sheet at the start of the text's buffer, and gives its length.
#[tactic(auto, using(crate::proofs::Printed::printed_long))]
fn text_of(s: &[u8], list: &mut [u8], text: &mut [u8]) -> usize
    requires list_len { length list.old ≡ 36864 }
    requires in_bounds { 92190 ≤ length text.old }
    ensures { Written text.old text.new result (printed s.now) }
{
    if s.len() > 65536 {
        return listing_text::write_refusal(Fault::Ends.number(), 65536, text);
    }
    match answer_listing::listing(s, list) {
        Ok(count) => listing_text::write_branches(list, count as usize, text),
        Err(r) => listing_text::write_refusal(r.fault.number(), r.at as u64, text),
    }
}

// From the input to the output.
fn answer<R: Read, W: Write>(
    input: &mut R,
    output: &mut W,
    room: &mut [u8],
    list: &mut [u8],
    text: &mut [u8],
) -> Result<(), Failure>
    requires list_len { length list.old ≡ 36864 }
    requires in_bounds { 92190 ≤ length text.old }
    ensures ended { Ended result room.new text.old text.new }
    ensures answers { Answers result (length room.new) (R.remaining input.old) (R.remaining input.new) (W.contents output.old) (W.contents output.new) }
{
    let n = read_input(input, room).map_err(|_| Failure::Unread)?;
    let length = text_of(&room[..n], list, text);
    output
        .write_all(&text[..length])
        .map_err(|_| Failure::Unwritten)
}

// The exit status. What went wrong is said where it can be; the status says it too.
fn status<E: Write>(end: Result<(), Failure>, errors: &mut E) -> u8
    ensures { result ≡ status_of end }
{
    match end {
        Ok(()) => 0,
        Err(failure) => {
            let _ = write!(errors, "{failure}");
            failure as u8
        }
    }
}

// The program; its `main` returns the number as its exit status.
pub fn program<R: Read, W: Write, E: Write>(input: &mut R, output: &mut W, errors: &mut E) -> u8
    ensures written { result ≡ 0 → Lists 65537 (R.remaining input.old) (R.remaining input.new) (W.contents output.old) (W.contents output.new) }
    ensures unread { result ≡ 1 → Keeps (W.contents output.old) (W.contents output.new) }
{
    // the longest input that is judged and one byte more, a line for each instruction that a sheet can have, and their text
    let mut room = [0; 65537];
    let mut list = [0; 36864];
    let mut text = [0; 92190];
    let end = answer(input, output, &mut room, &mut list, &mut text);
    status(end, errors)
}

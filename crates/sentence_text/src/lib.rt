// A sentence of one or two causes, written into a borrowed text that can hold it. Its length is known before a byte is written.
#![tactic(auto)]

ghost use Rattle.std.specs.Prelude.{◌≡◌, ◌++◌, cond, ◌&&◌, ◌+◌, ◌*◌, ◌≤◌, eqb, length, take};
ghost use Rattle.std.proofs.Math.Seq.{slice};
ghost use Rattle.laws.specs.Words.{same_words};
ghost use Rattle.text.specs.Promises.{Puts};
ghost use Rattle.phrase.specs.Promises.{cause_text};
ghost use Rattle.sentence_text.specs.Sentence.{joined, turned_times};
ghost use Rattle.sentence_text.specs.Promises.{said_text, turns_of, in_parts, Composes, Fits};

use phrase::Cause;
use text::Writer;

// What a sentence says. A number is how many cmc came after the cause before it.
#[derive(Clone, Copy)]
pub enum Said {
    One(Cause, u64),
    // both, or the first alone where they have one text
    Joined(Cause, u64, Cause),
}

// A sentence by two parts of a buffer, up to `head` and from there up to `end`, with what so many cmc add between them.
#[derive(Clone, Copy)]
struct Composed {
    head: usize,
    turns: u64,
    end: usize,
}

// The text that was lent is shorter than the sentence, which needs so many bytes.
#[derive(Clone, Copy, PartialEq, Eq, Debug)]
pub struct TooShort {
    pub needed: usize,
}

// Where a buffer ends that has one text up to `head` and another from `from` up to `end`: after the first, where no cmc follows it and both are the
// same.
fn joined_end(buffer: &[u8], turns: u64, head: usize, from: usize, end: usize) -> usize
    requires head_le_from { head ≤ from }
    requires from_le_end { from ≤ end }
    requires end_in_bounds { end ≤ length buffer.now }
    ensures { result ≡ cond (eqb turns 0 && same_words (take head buffer.now) (slice from end buffer.now)) head end }
{
    if turns != 0 {
        return end;
    }
    if buffer[..head] == buffer[from..end] {
        head
    } else {
        end
    }
}

// Puts two causes, with ", and " between them.
fn put_both(cause: Cause, turns: u64, second: Cause, buffer: &mut [u8]) -> Composed
    requires { 210 ≤ length buffer.old }
    ensures { Composes (joined (cause_text cause ++ turned_times turns) (cause_text second)) turns buffer.new result }
{
    let mut out = Writer::new(buffer);
    phrase::put_cause(cause, &mut out);
    let head = out.at;
    out.put_word(b", and ");
    let from = out.at;
    phrase::put_cause(second, &mut out);
    let end = out.at;
    Composed {
        head,
        turns,
        end: joined_end(buffer, turns, head, from, end),
    }
}

// Puts the parts of a sentence, if there is one, into a buffer.
fn compose(said: Option<Said>, buffer: &mut [u8]) -> Composed
    requires { 210 ≤ length buffer.old }
    ensures { Composes (said_text said) (turns_of said) buffer.new result }
{
    let Some(said) = said else {
        return Composed {
            head: 0,
            turns: 0,
            end: 0,
        };
    };
    match said {
        Said::One(cause, turns) => {
            let mut out = Writer::new(buffer);
            phrase::put_cause(cause, &mut out);
            Composed {
                head: out.at,
                turns,
                end: out.at,
            }
        }
        Said::Joined(cause, turns, second) => put_both(cause, turns, second, buffer),
    }
}

// Puts what so many cmc add.
#[tactic(auto, using(crate::proofs::Turns::turns_long))]
fn put_turns(turns: u64, out: &mut Writer)
    requires { out.old.at + 24 * turns ≤ length out.old.out.now }
    ensures { Puts out.old out.new (turned_times turns) }
{
    for _turn in 0..turns {
        out.put_word(b", and cmc turns it round");
    }
}

// Writes two texts to the start of one that can hold them, with what so many cmc add between them.
#[tactic(auto, using(crate::proofs::Turns::turns_long))]
fn write(first: &[u8], turns: u64, rest: &[u8], text: &mut [u8]) -> Result<usize, TooShort>
    requires first_len_bound { length first.now + length rest.now ≤ 210 }
    requires turns_bound { turns ≤ 65536 }
    ensures { Fits result (first.now ++ turned_times turns ++ rest.now) text.old text.new }
{
    let needed = first.len() + 24 * turns as usize + rest.len();
    if text.len() < needed {
        return Err(TooShort { needed });
    }
    let mut out = Writer::new(text);
    out.put_word(first);
    put_turns(turns, &mut out);
    out.put_word(rest);
    Ok(out.at)
}

// Writes the sentence to the start of the text, where the text can hold it, and gives its length. Where nothing is said it is empty.
pub fn tell(said: Option<Said>, text: &mut [u8]) -> Result<usize, TooShort>
    requires { turns_of said ≤ 65536 }
    ensures { Fits result (said_text said) text.old text.new }
{
    let mut buffer = [0; 210];
    let c = compose(said, &mut buffer);
    write(&buffer[..c.head], c.turns, &buffer[c.head..c.end], text)
}

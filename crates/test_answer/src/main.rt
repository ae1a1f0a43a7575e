// The operations as a program that a comparison can ask: frames from standard input, a line for each to standard output. The
// files `stdin` and `stdout` are the stored cases, and the lines that are due.
// A frame's first byte is the operation's number: 0 reading, 1 the verdicts on all blocks, 2 the evaluation, 3 the verdicts
// on all nodes, 4 the sentences of all blocks. A sheet makes up the rest of a frame of 0, 1, 3 and 4. In a frame of 2 stand,
// in 4 bytes each, the node's number, how many values a set has, how many sets there are, and the sheet's length; then the
// sheet, and the sets: a value is its number of bytes (0 to 8) and those bytes.
#![tactic(auto)]

use refusal::{Fault, Refusal};
use sheet::Sheet;
use std::io::Read;
use test_io::Early;
use verdict::{Answer, Reason, Verdict};

// How many bytes the longest sentence of a block has.
const LONGEST_SENTENCE: usize = 49182;

fn refused(output: &impl Print, r: Refusal) -> Result<(), Early> {
    test_io::word(output, b"refused")?;
    test_io::number(output, r.fault.number())?;
    test_io::word(output, b" at")?;
    test_io::number(output, r.at as u64)
}

// The three counts, and where the records start.
fn accepted(output: &impl Print, sheet: Sheet) -> Result<(), Early> {
    let i = sheet.instructions;
    let b = sheet.blocks;
    let n = sheet.nodes;
    test_io::word(output, b"accepted")?;
    for count in [i.count, b.count, n.count] {
        test_io::number(output, count)?;
    }
    test_io::word(output, b" at")?;
    for at in [i.at, b.at, n.at] {
        test_io::number(output, at as u64)?;
    }
    Ok(())
}

fn say_reading(output: &impl Print, s: &[u8]) -> Result<(), Early> {
    match sheet::read(s) {
        Ok(sheet) => accepted(output, sheet),
        Err(r) => refused(output, r),
    }
}

fn say_decided(output: &impl Print, way: &[u8], r: Reason) -> Result<(), Early> {
    test_io::word(output, way)?;
    test_io::digits(output, r.number() as u64)
}

// a always and v never, each with the reason's number; u undecided, n no branch.
fn say_verdict(output: &impl Print, v: Verdict) -> Result<(), Early> {
    match v {
        Verdict::NoBranch => test_io::word(output, b" n"),
        Verdict::Undecided => test_io::word(output, b" u"),
        Verdict::Always(r) => say_decided(output, b" a", r),
        Verdict::Never(r) => say_decided(output, b" v", r),
    }
}

// r with its number for a refusal. That of the number past the last record is due and is not said; any other answer for that
// number is one too many on the line.
fn say_refused(output: &impl Print, r: Refusal, past: bool) -> Result<(), Early> {
    if past & (r == Fault::Number.at(0)) {
        return Ok(());
    }
    test_io::word(output, b" r")?;
    test_io::digits(output, r.fault.number())
}

fn say_answer(output: &impl Print, a: Answer, past: bool) -> Result<(), Early> {
    match a {
        Ok(v) => say_verdict(output, v),
        Err(r) => say_refused(output, r, past),
    }
}

// A bar and the sentence of the block of that number, nothing where it has none.
fn say_sentence(output: &impl Print, s: &[u8], number: u64, past: bool) -> Result<(), Early> {
    let mut text = [0u8; LONGEST_SENTENCE];
    let told = answer_sentence::block_sentence(s, number, &mut text);
    match told {
        Ok(n) => {
            test_io::word(output, b"|")?;
            test_io::start(output, &text, n)
        }
        Err(r) => say_refused(output, r, past),
    }
}

// The records' name, and what is said of each of them and of the one past the last; `say` is told which of the two it is.
fn say_records<C: Fn(Sheet) -> u64, F: Fn(u64, bool) -> Result<(), Early>>(
    output: &impl Print,
    s: &[u8],
    name: &[u8],
    count: C,
    say: F,
) -> Result<(), Early>
    requires counts { C.IsAlwaysCallable count }
    requires says { F.IsAlwaysCallable say }
{
    let sheet = match sheet::read(s) {
        Ok(sheet) => sheet,
        Err(r) => return refused(output, r),
    };
    test_io::word(output, name)?;
    let n = count(sheet);
    for i in 0..n {
        say(i, false)?;
    }
    say(n, true)
}

// Commas stand between the evaluations of one line.
fn comma(output: &impl Print, number: u32) -> Result<(), Early> {
    if number > 0 {
        test_io::word(output, b", ")?;
    }
    Ok(())
}

fn say_evaluation(output: &impl Print, e: Result<bool, Refusal>) -> Result<(), Early> {
    match e {
        Ok(true) => test_io::word(output, b"holds"),
        Ok(false) => test_io::word(output, b"fails"),
        Err(r) => refused(output, r),
    }
}

// The value that the bytes begin with, and the bytes after it; none where they end before.
fn take_value(s: &[u8]) -> Option<(u64, &[u8])> {
    let (n, rest) = s.split_first()?;
    if *n > 8 {
        return None;
    }
    let (value, rest) = rest.split_at_checked(*n as usize)?;
    Some((test_io::eight(value), rest))
}

// Fills the list with the values that the bytes begin with, and gives the bytes after them.
fn take_set<'a>(s: &'a [u8], values: &mut [u64]) -> Option<&'a [u8]> {
    let mut rest = s;
    for place in values {
        let (value, next) = take_value(rest)?;
        *place = value;
        rest = next;
    }
    Some(rest)
}

// The evaluation on each set, all on one line.
fn say_sets(
    output: &impl Print,
    sheet: &[u8],
    node: u64,
    sets: &[u8],
    count: u32,
    values: &mut [u64],
) -> Result<(), Early> {
    let mut rest = sets;
    for i in 0..count {
        rest = take_set(rest, values).ok_or(Early::Cut)?;
        comma(output, i)?;
        say_evaluation(output, answer_evaluation::evaluation(sheet, node, values))?;
    }
    if !rest.is_empty() {
        return Err(Early::TooLong);
    }
    Ok(())
}

// The frame of an evaluation, after the operation's number.
fn answer_evaluation(output: &impl Print, s: &[u8], values: &mut [u64]) -> Result<(), Early> {
    if s.len() < 16 {
        return Err(Early::Cut);
    }
    let node = test_io::four(s) as u64;
    let each = test_io::four(&s[4..]) as usize;
    let count = test_io::four(&s[8..]);
    let length = test_io::four(&s[12..]) as usize;
    let values = values.get_mut(..each).ok_or(Early::TooManyValues)?;
    let (sheet, sets) = s[16..].split_at_checked(length).ok_or(Early::Cut)?;
    say_sets(output, sheet, node, sets, count, values)
}

// The line of a frame.
fn answer(output: &impl Print, frame: &[u8], values: &mut [u64]) -> Result<(), Early> {
    let (operation, s) = frame.split_first().ok_or(Early::Cut)?;
    // the numbers that the comment at the head gives, matched here alone: an enum of them would be one more list of the same
    match *operation {
        0 => say_reading(output, s)?,
        1 => say_records(
            output,
            s,
            b"blocks",
            |sheet| sheet.blocks.count,
            |i, past| say_answer(output, answer_block::block_verdict(s, i), past),
        )?,
        2 => answer_evaluation(output, s, values)?,
        3 => say_records(
            output,
            s,
            b"nodes",
            |sheet| sheet.nodes.count,
            |i, past| say_answer(output, answer_node::node_verdict(s, i), past),
        )?,
        4 => say_records(
            output,
            s,
            b"sentences",
            |sheet| sheet.blocks.count,
            |i, past| say_sentence(output, s, i, past),
        )?,
        _ => return Err(Early::NoOperation),
    }
    test_io::word(output, b"\n")
}

// Answers the frames up to the input's end, or up to one that has no answer.
fn answer_all<R: Read>(
    input: &mut R,
    output: &impl Print,
    buf: &mut [u8],
    values: &mut [u64],
) -> Result<(), Early> {
    // a loop that counts: nothing is known of an input that falls with each frame, as a `while let` would need it
    for _ in 0..u64::MAX {
        match test_io::next_frame(input, buf)? {
            None => return Ok(()),
            Some(n) => answer(output, &buf[..n], values)?,
        }
    }
    Ok(())
}

// It always ends with status 0, so one that ends too early says so on standard output too, where the lines are compared.
fn main(rt: HostRuntime) {
    let mut buf = test_io::room();
    let mut values = [0u64; 256];
    let output = rt.stdout();
    let end = answer_all(&mut rt.stdin(), &output, &mut buf, &mut values);
    if test_io::is_early(&rt.stderr(), end) {
        let _ = test_io::word(&output, b"ended too early\n");
    }
}

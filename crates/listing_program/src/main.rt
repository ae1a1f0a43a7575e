// The listing program: crates/listing on the streams of the system, with an exit status. It reads a sheet from standard input; a
// file that is named takes the place of that.
#![tactic(auto)]

use std::env::{Env, FillError};
use std::fs::{File, Files};
use std::io::{Read, Write};
use std::process::ExitCode;

const HELP: &str = "usage: listing [SHEET]
Writes the decided branches of a sheet, or why it is refused. Without a file's name, or with -, the sheet
is read from standard input.
Status: 0 the text was written, 1 the sheet cannot be read, 2 the text cannot be written, 3 wrong usage.
";

// The number is that of the interface, POMTHIJA_VERSION of include/pomthija.h.
const VERSION: &str = "listing, interface 1\n";

// Writes a text in place of a listing, and gives the exit status.
fn say<W: Write>(output: &mut W, text: &str) -> u8 {
    match output.write_all(text.as_bytes()) {
        Ok(()) => 0,
        Err(_) => 2,
    }
}

fn complain<E: Write>(errors: &mut E, text: &[u8]) {
    let _ = errors.write_all(text);
}

// The listing of the file of that name. A name that is not UTF-8 names no file here.
fn list_file<R: Files, W: Write, E: Write>(
    rt: &R,
    name: &[u8],
    output: &mut W,
    errors: &mut E,
) -> u8 {
    if let Ok(path) = str::from_utf8(name) {
        if let Ok(mut file) = File::open(rt, path) {
            return listing::program(&mut file, output, errors);
        }
    }
    complain(errors, b"listing: ");
    complain(errors, name);
    complain(errors, b" cannot be read\n");
    1
}

fn refuse<E: Write>(errors: &mut E) -> u8 {
    complain(errors, HELP.as_bytes());
    3
}

// What the one argument asks for.
fn answer<R: Files, I: Read, W: Write, E: Write>(
    rt: &R,
    word: &[u8],
    input: &mut I,
    output: &mut W,
    errors: &mut E,
) -> u8 {
    match word {
        b"--help" => say(output, HELP),
        b"--version" => say(output, VERSION),
        b"-" => listing::program(input, output, errors),
        [b'-', ..] => refuse(errors),
        _ => list_file(rt, word, output, errors),
    }
}

fn has_argument(rt: &impl Env, number: usize) -> bool {
    !matches!(rt.arg(number, &mut [0u8; 1]), Err(FillError::NotPresent))
}

fn run<R: Env + Files, I: Read, W: Write, E: Write>(
    rt: &R,
    input: &mut I,
    output: &mut W,
    errors: &mut E,
) -> u8 {
    // longer than the system lets an argument be
    let mut word = [0u8; 131072];
    if !has_argument(rt, 1) {
        return listing::program(input, output, errors);
    }
    if has_argument(rt, 2) {
        return refuse(errors);
    }
    match rt.arg(1, &mut word) {
        Ok(n) => answer(rt, &word[..n], input, output, errors),
        Err(_) => list_file(rt, &word, output, errors),
    }
}

fn main(rt: HostRuntime) -> ExitCode {
    ExitCode::from(run(&rt, &mut rt.stdin(), &mut rt.stdout(), &mut rt.stderr()))
}

// The listing program on the scope document's sheet: standard input has it, and the file `stdout` the two lines that are due.
#![tactic(auto)]

use std::process::ExitCode;

fn main(rt: HostRuntime) -> ExitCode {
    ExitCode::from(listing::program(&mut rt.stdin(), &mut rt.stdout(), &mut rt.stderr()))
}

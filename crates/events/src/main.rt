// The event program (document 01, "Event lines"; docs/EVENTS.md): calls on standard input, a line each, and their answers on standard output.
//
// `input` parts the bytes that are read into lines (specs/Input); `answering::answers::answer_line` answers a line.
#![tactic(auto)]

mod input;
mod output;
mod so_far;

use output::Output;
use std::process::ExitCode;

// The bytes that a store needs for L = 100 and Q = 2, the most that a line may open.
const STORE: usize = 22_976;

// What a shell tells of a program that SIGPIPE ended. The start of a program ignores that signal.
const CLOSED: u8 = 141;

fn main(rt: HostRuntime) -> ExitCode {
    let mut store = [0u8; STORE];
    let mut output = Output::from(rt.stdout());
    input::run(&mut rt.stdin(), &mut output, &mut store);
    if output.is_closed() {
        ExitCode::from(CLOSED)
    } else {
        ExitCode::SUCCESS
    }
}

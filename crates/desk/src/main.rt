// Runs the calls on standard input, one a line, and prints the reply to each.
#![tactic(auto)]

mod desk;
mod edit;
mod fault;
mod input;
mod line;
mod made;
mod number;
mod pieces;
mod query;
mod reply;
mod runs;
mod words;

use desk::Desk;
use input::{INPUT_LIMIT, is_allowed};
use memory::input::read_up_to;
use pieces::split;
use std::io;
use std::process::ExitCode;

// Answers the input, or says that it is too long.
fn run(rt: &HostRuntime) -> io::Result<ExitCode> {
    let bytes = read_up_to(rt.alloc(), rt.stdin(), INPUT_LIMIT)?;
    if !is_allowed(bytes.len()) {
        println!(rt; "the input is longer than {INPUT_LIMIT} bytes")?;
        return Ok(ExitCode::FAILURE);
    }
    let lines = split(rt.alloc(), &bytes, b'\n')?;
    let mut desk = Desk::new(rt.alloc());
    for (i, line) in lines.iter().enumerate() {
        desk.take(rt, i + 1, line)?;
    }
    desk.finish(rt)?;
    Ok(ExitCode::SUCCESS)
}

// An error ends the program with status 1.
fn main(rt: HostRuntime) -> ExitCode {
    run(&rt).unwrap_or(ExitCode::FAILURE)
}

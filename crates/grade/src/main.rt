// Grades the sheet file on standard input, under each measure with the blank guide.
#![tactic(auto)]

mod grade;
mod input;
mod read;
mod report;

use input::INPUT_LIMIT;
use memory::failure::Failure;
use memory::input::read_up_to;
use report::grade_file;
use std::io;
use std::process::ExitCode;

// Prints the grades, or the number of the refusal.
fn run(rt: &HostRuntime) -> io::Result<ExitCode> {
    let bytes = read_up_to(rt.alloc(), rt.stdin(), INPUT_LIMIT)?;
    match grade_file(rt.alloc(), &bytes) {
        Ok(report) => {
            print!(rt; "{report}")?;
            Ok(ExitCode::SUCCESS)
        }
        Err(Failure::Told(refusal)) => {
            let number = refusal.number();
            println!(rt; "refused {number}")?;
            Ok(ExitCode::FAILURE)
        }
        Err(Failure::Memory(error)) => Err(error.into()),
    }
}

// An error ends the program with status 1.
fn main(rt: HostRuntime) -> ExitCode {
    run(&rt).unwrap_or(ExitCode::FAILURE)
}

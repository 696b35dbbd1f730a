//! The command line of rule books.
#![tactic(auto)]

mod answer;
mod command;
mod failure;
mod infix;
mod leaks;
mod nearest;
mod record;

use answer::answer;
use failure::Failure;
use std::env;
use std::process::ExitCode;

/// Prints the answer to the arguments, of which the first is the program's own name. Where there is none it prints why, and ends
/// with status 1. Only a failure of memory, of the arguments or of printing goes to standard error.
fn main(rt: HostRuntime) -> anyhow::Result<ExitCode> {
    let arguments: Vec<String> = env::args(&rt)?.skip(1).collect(rt.alloc())?;
    match answer(&rt, arguments.as_slice()) {
        Ok(text) => {
            rt.print(text)?;
            Ok(ExitCode::SUCCESS)
        }
        Err(Failure::Memory(error)) => Err(error.into()),
        Err(failure) => {
            rt.print(failure)?;
            Ok(ExitCode::FAILURE)
        }
    }
}

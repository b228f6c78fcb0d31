//! Reads a transcript, and writes it again from what it says; or tells the line where it is none.
#![tactic(auto)]

mod laws;
mod output;
mod top;

use dcp_io::{Reading, Writing, exit_of};
use std::io;
use std::process::ExitCode;

fn main(rt: HostRuntime) -> ExitCode {
    let mut input = Reading::new(rt.reader());
    let mut output = Writing::new(io::writer(&rt));
    exit_of(top::write_back(rt.alloc(), &mut input, &mut output))
}

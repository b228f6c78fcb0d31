//! Runs a script over a cluster of nodes, and writes the transcript of all that happened, or few lines
//! on that of a script that is made; or runs a storm of clients on threads, and writes its lines.
#![tactic(auto)]

mod held;
mod laws;
mod output;
mod storm_words;
mod summary;
mod top;
mod words;

use dcp_io::{Reading, Sink, Status, Writing, exit_of};
use std::alloc::Global;
use std::process::ExitCode;
use std::rt::Env;
use std::{env, io};
use storm_words::starts_storm;

/// The words of the command line behind the program's name, as the system gives them.
fn fetch_words(rt: &(impl Env + AllocGlobal)) -> io::Result<Vec<String>> {
    Ok(env::args(rt)?.skip(1).collect(rt.alloc())?)
}

/// Does what words ask for that are no storm's, from standard input on.
fn run<O: Sink>(rt: &HostRuntime, words: &[String], output: &mut O) -> Status {
    let mut input = Reading::new(rt.reader());
    top::dcp_main(rt.alloc(), words, &mut input, output)
}

/// Does what the command line asks for, to standard output. The first word says whether that is a storm: only
/// that one is handed the threads, and may wait.
fn main(rt: HostRuntime) -> ExitCode {
    let alloc: Global = rt.alloc();
    let words = match words::accept_words(alloc, fetch_words(&rt)) {
        Ok(words) => words,
        Err(status) => return exit_of(status),
    };
    let mut output = Writing::new(io::writer(&rt));
    if starts_storm(&words) {
        return exit_of(top::dcp_storm(&rt, alloc, &words, &mut output));
    }
    exit_of(run(&rt, &words, &mut output))
}

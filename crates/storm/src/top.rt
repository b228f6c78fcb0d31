//! A storm, and the text of its lines.
ghost use Rattle.std.specs.Prelude.{◌≡◌, ◌≤◌, IfOk, length, string_bytes};
ghost use Rattle.storm_model.specs.Texts.{lines_text, storm_text};
ghost use Rattle.storm.specs.Told.{StormTold};

use crate::plan::Plan;
use crate::whole::storm;
use dcp_io::{Sink, Status, put_text};
use node_threads::Open;
use std::alloc::{AllocError, Global};
use std::sync::Wait;
use std::thread::Threads;
use storm_model::{StormLine, line_text};

/// The text of these lines, of the vBuckets from 0 on.
fn text_of(alloc: Global, lines: &[StormLine]) -> Result<String, AllocError>
    requires { length lines.now ≤ 4 }
    ensures { IfOk result (λ text. string_bytes text ≡ lines_text 0 lines.now) }
{
    let mut text = String::new(alloc);
    let mut v: u16 = 0;
    for line in lines {
        text.push_str(&line_text(alloc, v, line)?)?;
        v += 1;
    }
    Ok(text)
}

/// Runs a storm, at whose gate nobody waits, and tells the text of its lines.
fn told_text<R: Threads + Wait + Sync>(
    rt: &R,
    alloc: Global,
    plan: &Plan,
) -> Result<String, AllocError>
    ensures { IfOk result (λ text. string_bytes text ≡ storm_text plan.now.seed plan.now.clients plan.now.writes) }
{
    let lines = storm(rt, alloc, &Open, plan)?;
    text_of(alloc, &lines)
}

/// Runs a storm, and writes its four lines. `Ok` says that they were written whole. `WriteFault`: the sink's
/// count of faults rose; `NoMemory`: it did not. At both, what was written is a front part of them, perhaps
/// nothing.
pub fn storm_main<R: Threads + Wait + Sync, O: Sink>(
    rt: &R,
    alloc: Global,
    plan: &Plan,
    output: &mut O,
) -> Status
    ensures { StormTold plan.now.seed plan.now.clients plan.now.writes (O.outlet output.old) (O.outlet output.new) result }
{
    let Ok(text) = told_text(rt, alloc, plan) else {
        return Status::NoMemory;
    };
    put_text(output, text.as_bytes())
        .err()
        .unwrap_or(Status::Ok)
}

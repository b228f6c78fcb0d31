//! A whole storm.
ghost use Rattle.std.specs.Prelude.{◌≡◌, IfOk};
ghost use Rattle.std.specs.List.{AllByRecursion};
ghost use Rattle.node_threads.specs.Seats.{row_of, rows_of};
ghost use Rattle.storm_model.specs.Sums.{storm_sum};
ghost use Rattle.storm.specs.Ending.{EndsWith, IsAlone};
ghost use Rattle.storm.specs.Rows.{AllTwo};

use crate::clients::run_clients;
use crate::ending::end;
use crate::opening::open_all;
use crate::plan::Plan;
use node_threads::SeatSlot;
use std::alloc::{AllocError, Global};
use std::sync::Wait;
use std::thread::Threads;
use storm_model::StormLine;
use vb_turn::Gate;

/// The lines of these vBuckets, in their order.
fn end_all<W: Wait, G: Gate>(
    rt: &W,
    alloc: Global,
    gate: &G,
    slots: Vec<SeatSlot>,
) -> Result<Vec<StormLine>, AllocError>
    requires { AllByRecursion IsAlone (rows_of slots.items) }
    ensures { IfOk result (λ lines. AllTwo (λ n. EndsWith) 0 (rows_of slots.items) lines.items) }
{
    let mut lines = Vec::new(alloc);
    for slot in slots {
        lines.push(end(rt, alloc, gate, slot)?)?;
    }
    Ok(lines)
}

/// Runs a storm, and tells the line of each of its four vBuckets. An `Err` is want of memory: then no line is
/// told.
pub fn storm<R: Threads + Wait + Sync, G: Gate + Sync>(
    rt: &R,
    alloc: Global,
    gate: &G,
    plan: &Plan,
) -> Result<Vec<StormLine>, AllocError>
    ensures { IfOk result (λ lines. lines.items ≡ storm_sum plan.now.seed plan.now.clients plan.now.writes) }
{
    let mut slots = open_all(rt, alloc)?;
    run_clients(rt, alloc, gate, plan, &mut slots)?;
    end_all(rt, alloc, gate, slots)
}

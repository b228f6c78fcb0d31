//! The top calls.
ghost use Rattle.std.specs.Prelude.{◌≡◌, ◌+◌, ◌<◌, ◌≤◌, ◌^◌, ℕ, IsTrue, Some, None, false, map, string_bytes};
ghost use Rattle.{dcp_main.specs.Runs.{Ran, Complete, GenRan, GenTold, UsageAlone, UsageTold}, dcp_main.specs.Words.{gen_words, says_run, storm_words}};
ghost use Rattle.storm.specs.Told.{StormTold};
ghost use Rattle.dcp_io.specs.declared.input.TheConstants.{MAX_INPUT};

use crate::output::run_script;
use crate::storm_words::storm_words;
use crate::summary::summarize;
use crate::words::{gen_words, is_run};
use dcp_io::{Sink, Source, Status, put_bad_line, put_text, read_all};
use script_text::{ScriptLines, check};
use std::alloc::Global;
use std::sync::Wait;
use std::thread::Threads;
use storm::storm_main;

/// Runs the script that the source gives, and writes its transcript, a group a line.
///
/// It reads to the end, in at most 268,435,457 turns, before it writes anything. What the status
/// says, of a source and a sink that tell their bytes:
/// - `Ok`: each line is in the grammar, and the whole transcript was written, which is lawful, and
///   passes a checker that runs nothing; each vBucket that the script leaves follows its branch.
/// - `BadLine`: line I is the first outside the grammar, and `bad line I` was written.
/// - `ReadFault`: the source's count of faults rose, and nothing was written.
/// - `InputTooLong`: more than 268,435,456 bytes were taken, and nothing was written. Where more
///   were taken it is that or `NoMemory`.
/// - `WriteFault`: the sink's count of faults rose; `NoMemory`: it did not. At both, what was
///   written is a front part of what the script asks for, perhaps nothing.
///
/// A count that stands at `u64::MAX` is taken for one that rose.
#[tactic(auto, using(crate::proofs::Completed::completed))]
pub fn script_main<I: Source, O: Sink>(alloc: Global, input: &mut I, output: &mut O) -> Status
    ensures ran { Ran (I.intake input.old) (I.intake input.new) (O.outlet output.old) (O.outlet output.new) result }
    ensures complete { Complete (I.intake input.old) (I.intake input.new) (O.outlet output.old) (O.outlet output.new) result }
    ensures turns { (I.intake input.new).turns ≤ (I.intake input.old).turns + MAX_INPUT + 1 }
    ensures limit { MAX_INPUT ≡ 268435456 }
{
    let bytes = match read_all(alloc, input) {
        Ok(bytes) => bytes,
        Err(status) => return status,
    };
    match check(alloc, &bytes) {
        Ok(Ok(())) => run_script(alloc, ScriptLines::new(alloc, &bytes), output)
            .err()
            .unwrap_or(Status::Ok),
        Ok(Err(bad)) => put_bad_line(alloc, bad.line, output)
            .err()
            .unwrap_or(Status::BadLine),
        Err(_) => Status::NoMemory,
    }
}

/// Runs the script of a seed and so many writes, and writes four lines: how many lines it has, how many
/// its transcript has, and how its last two lines show both vBuckets.
///
/// What the status says, of a sink that tells its bytes:
/// - `Ok`: exactly these lines were written, and the transcript, of which they tell, is lawful, and
///   passes a checker that runs nothing; each vBucket that the script leaves follows its branch.
/// - `WriteFault`: the sink's count of faults rose; `NoMemory`: it did not. At both, what was written
///   is a front part of these lines, perhaps nothing.
#[tactic(auto, using(crate::proofs::Made::made_is_lawful, crate::proofs::Made::made_passes, crate::proofs::Made::made_is_followed))]
pub fn gen_main<O: Sink>(alloc: Global, seed: u64, count: u32, output: &mut O) -> Status
    ensures { GenTold seed count (O.outlet output.old) (O.outlet output.new) result }
{
    let Ok(text) = summarize(alloc, seed, count) else {
        return Status::NoMemory;
    };
    put_text(output, text.as_bytes())
        .err()
        .unwrap_or(Status::Ok)
}

/// Writes the usage line.
fn put_usage<O: Sink>(output: &mut O) -> Status
    ensures { UsageTold (O.outlet output.old) (O.outlet output.new) result }
{
    put_text(
        output,
        b"usage: dcp_main run | gen SEED COUNT | storm SEED CLIENTS WRITES\n",
    )
    .err()
    .unwrap_or(Status::Usage)
}

/// Does what the command line asks for, where that is no storm: `run` is [`script_main`], and
/// `gen SEED COUNT` is [`gen_main`], which reads nothing. At any other words nothing is read, and
/// `Usage` says that the usage line was written whole.
pub fn dcp_main<I: Source, O: Sink>(
    alloc: Global,
    words: &[String],
    input: &mut I,
    output: &mut O,
) -> Status
    ensures run { IsTrue (says_run (map string_bytes words.now))
        → Ran (I.intake input.old) (I.intake input.new) (O.outlet output.old) (O.outlet output.new) result }
    ensures complete { IsTrue (says_run (map string_bytes words.now))
        → Complete (I.intake input.old) (I.intake input.new) (O.outlet output.old) (O.outlet output.new) result }
    ensures made { (seed count : ℕ) → gen_words (map string_bytes words.now) ≡ Some (seed, count)
        → GenRan seed count (I.intake input.old) (I.intake input.new) (O.outlet output.old) (O.outlet output.new) result }
    ensures other { says_run (map string_bytes words.now) ≡ false → gen_words (map string_bytes words.now) ≡ None
        → UsageAlone (I.intake input.old) (I.intake input.new) (O.outlet output.old) (O.outlet output.new) result }
    ensures turns { (I.intake input.new).turns ≤ (I.intake input.old).turns + MAX_INPUT + 1 }
{
    if is_run(words) {
        return script_main(alloc, input, output);
    }
    if let Some((seed, count)) = gen_words(words) {
        return gen_main(alloc, seed, count, output);
    }
    put_usage(output)
}

/// Runs the storm that the words ask for, on threads, and writes its four lines, which are those of the clients one after
/// the other, whatever their order was. At any other words no thread is started, and `Usage` says that the usage
/// line was written whole. It has nothing to read from, and it may wait: what is said here holds where it returns.
///
/// - `Ok`: exactly these lines were written.
/// - `WriteFault`: the sink's count of faults rose; `NoMemory`: it did not. At both, what was written is a front
///   part of these lines, or of the usage line, perhaps nothing.
pub fn dcp_storm<R: Threads + Wait + Sync, O: Sink>(
    rt: &R,
    alloc: Global,
    words: &[String],
    output: &mut O,
) -> Status
    ensures storm { (seed clients writes : ℕ) → storm_words (map string_bytes words.now) ≡ Some (seed, (clients, writes))
        → StormTold seed clients writes (O.outlet output.old) (O.outlet output.new) result }
    ensures other { storm_words (map string_bytes words.now) ≡ None → UsageTold (O.outlet output.old) (O.outlet output.new) result }
{
    match storm_words(words) {
        Some(plan) => storm_main(rt, alloc, &plan, output),
        None => put_usage(output),
    }
}

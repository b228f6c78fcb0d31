//! The lines that are written of a storm.
ghost use Rattle.std.specs.Prelude.{◌≡◌, IfOk, string_bytes};
ghost use Rattle.storm_model.specs.Texts.{line_text};

use std::alloc::{AllocError, Global};

/// What is written of a vBucket.
#[derive(Clone, Copy, Debug, PartialEq, Eq)]
pub struct StormLine {
    /// The last seqno.
    pub high: u64,
    /// How many documents there are.
    pub docs: u64,
    /// The sum of their values.
    pub sum: u64,
    /// The last seqno that is written down.
    pub saved: u64,
    /// The sum of the values that the first reader has.
    pub read_first: u64,
    /// The sum of the values that the second reader has.
    pub read_second: u64,
}

/// The text of the line of this vBucket.
#[tactic(auto, unfolding(crate::specs::Texts::counts_text, crate::specs::Texts::reads_text))]
pub fn line_text(alloc: Global, vb: u16, line: &StormLine) -> Result<String, AllocError>
    ensures { IfOk result (λ text. string_bytes text ≡ line_text vb line.now) }
{
    let (high, docs, sum) = (line.high, line.docs, line.sum);
    let (saved, first, second) = (line.saved, line.read_first, line.read_second);
    let mut text = format!(in alloc; "vb {vb} high {high} docs {docs} sum {sum}")?;
    writeln!(text, " saved {saved} read {first} {second}")?;
    Ok(text)
}

//! Fronts: up to where the journal of a vBucket has all of its branch.

ghost use Rattle.std.specs.Prelude.{List};
ghost use Rattle.script_text.specs.Fitting.{ScriptFits};
ghost use Rattle.script_text.specs.declared.verb.ScriptLine.{ScriptLine};
ghost use Rattle.transcript_law.specs.Fronts.{FrontsAreFound, FrontsAreSent, FrontsStay};
ghost use Rattle.transcript_law.specs.Prefixes.{known_of, world_of};

/// After every line of a script what counts as saved of an active vBucket is a front, where no snapshot
/// that it received goes on above it. Up to each front that the lines tell, its journal has all of its
/// branch: what a stream finds there from its place is a whole snapshot of what it is shown of the branch,
/// with no change that another one up to the snapshot's end replaced, and nothing that it is shown comes
/// between that end and the front. Nothing is found only where it is shown nothing up to there.
pub fn fronts_are_found()
    ensures { (script : List ScriptLine) → ScriptFits script → FrontsAreFound (known_of script) (world_of script) }
{}

/// A front stays one behind each lawful line, and each lawful group of lines behind which its node runs,
/// whatever else they tell: other vBuckets' branches and disks, its own changes and batches, what counts
/// as saved, and its role. But for a new branch of its vBucket, a log that this takes over, and a way
/// back of it.
pub fn fronts_stay()
    ensures { FrontsStay }
{}

/// What a journal has for a stream up to a front is lawful to send, whether it is a link's or a
/// client's, with durable writes or without: its marker, which says that it is from the journal, and
/// each of its items.
pub fn fronts_are_sent()
    ensures { FrontsAreSent }
{}

//! The streams of vBuckets, and the links and clients that they are of.

ghost use Rattle.std.specs.Prelude.{List};
ghost use Rattle.script_text.specs.Fitting.{ScriptFits};
ghost use Rattle.script_text.specs.declared.verb.ScriptLine.{ScriptLine};
ghost use Rattle.transcript_law.specs.Feeding.{LinksAreFed, StreamsAreFed, StreamsAreKnown};
ghost use Rattle.transcript_law.specs.Prefixes.{world_of};

/// After every line of a script each stream of a vBucket is that of an open link or of a client's open
/// connection, whose producer's node and vBucket it is, and each one whose producer says that it has a
/// stream has it there; no two of them have one stream. Each open link feeds a vBucket that follows, at
/// a node that runs, and no two links feed one.
pub fn streams_are_fed()
    ensures streams { (script : List ScriptLine) → ScriptFits script → StreamsAreFed (world_of script) }
    ensures links { (script : List ScriptLine) → ScriptFits script → LinksAreFed (world_of script) }
{}

/// After every line of a script each stream that a producer says that it has is known to its vBucket,
/// which answers Absent to no question for its place and to no take of it. So no stream of a script is
/// ended since its vBucket lost it.
pub fn streams_are_known()
    ensures { (script : List ScriptLine) → ScriptFits script → StreamsAreKnown (world_of script) }
{}

//! What holds of numberings, and of what a line tells beside what its node did. Each law is a
//! function with no work to do.
ghost use Rattle.std.specs.Prelude.{Bool, ℕ};
ghost use Rattle.client_session.specs.Serving.{PlainSession};
ghost use Rattle.dcp_producer.specs.Producers.{PlainProducer};
ghost use Rattle.node_world.specs.Buffers.{BuffersBecomeWindows, BuffersInNumbers};
ghost use Rattle.node_world.specs.declared.told.Told.{Told as ToldData};
ghost use Rattle.node_world.specs.Nodes.{PlainNode};
ghost use Rattle.node_world.specs.Numberings.{BasesAreApart, LinksAreApart, OpensApart, StreamsAreApart, WaitsAreApart};
ghost use Rattle.node_world.specs.OpenEnds.{EndsAreLinks};
ghost use Rattle.node_world.specs.Plumbing.{ClocksAreSet, FailuresAreTold, FiresOnce, GroupsAreLines, OpeningsAreTold, TellsInOrder};
ghost use Rattle.node_world.specs.Stands.{Kept, WorldStands};
ghost use Rattle.node_world.specs.Worlds.{PlainWorld};
ghost use Rattle.script_text.specs.declared.verb.ScriptLine.{ScriptLine as ScriptLineData};
ghost use Rattle.vb_calls.specs.declared.calls.Resolved.{Resolved};
ghost use Rattle.vb_disk.specs.declared.fuse.Fuse.{Fuse as FuseData};
ghost use Rattle.vb_disk.specs.declared.made.Outcome.{Outcome as OutcomeData};
ghost use Rattle.vb_types.specs.declared.stream.StreamAsk.{StreamAsk};

/// Two waits have one number only where their connections have one base and asked for as many durable
/// writes before: a wait has the base in its upper 32 bits, and that count, from 1 on, in the lower ones.
/// Bases of different lines differ, and a connection begins with its line's base and no wait; that the
/// count rises with each write and never falls is `waits_have_numbers` of client_session. The streams of
/// producers are numbered just so, by how many each asked for, and a link's producer has the base of its
/// line.
pub fn numberings_are_apart()
    ensures waits { (s t : PlainSession) → WaitsAreApart s t }
    ensures streams { (p q : PlainProducer) → StreamsAreApart p q }
    ensures bases { (line other : ℕ) → BasesAreApart line other }
    ensures opened { (w : PlainWorld) (line n c : ℕ) → OpensApart w line n c }
    ensures links { (line l m n v buffer : ℕ) (takeover : Bool) (ask : StreamAsk) → LinksAreApart line l m n v buffer takeover ask }
{}

/// The BUF of a line that dials is what the link's consumer asks for, right behind OPEN, and what its
/// producer's window has once that came up, and not before. With 0 nothing is asked for.
pub fn buffers_become_windows()
    ensures lines { (w : PlainWorld) (l m n v buffer : ℕ) (takeover : Bool) → BuffersBecomeWindows w l m n v buffer takeover }
    ensures numbers { (line l m v : ℕ) (takeover : Bool) (ask : StreamAsk) (producer : PlainNode) → BuffersInNumbers line l m v takeover ask producer }
{}

/// An arm fires once, as it was to. A call that failed is told behind all else, and before the end of
/// a link that could not go back; of a node that starts it is told alone.
pub fn failures_are_told()
    ensures fires { (before after : FuseData) → FiresOnce before after }
    ensures lines { (w : PlainWorld) (n l : ℕ) (out : OutcomeData) (told : ToldData) → FailuresAreTold w n l out told }
    ensures openings { (n : ℕ) → OpeningsAreTold n }
{}

/// A group has its line's number. A clock shows what a line sets it to. Of two outcomes the one that came
/// first is told first.
pub fn lines_are_told_in_order()
    ensures groups { (w : PlainWorld) (line : ScriptLineData) → GroupsAreLines w line }
    ensures clocks { (w : PlainWorld) (line n nanos : ℕ) (node : PlainNode) → ClocksAreSet w line n nanos node }
    ensures outcomes { (r s : Resolved) (node : PlainNode) → TellsInOrder r s node }
{}

/// In a world that stands for a plain one a node keeps a producer's end exactly where an open link has
/// it there, and a dial exactly where an open link was dialed for its vBucket.
pub fn ends_are_links()
    ensures { (kept : Kept) (w : PlainWorld) → WorldStands kept w → EndsAreLinks kept }
{}

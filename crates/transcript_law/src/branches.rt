//! What a script leaves of its branches.

ghost use Rattle.std.specs.Prelude.{ℕ, List, ◌++◌};
ghost use Rattle.transcript_law.specs.Heirless.{IsHeirless, NobodyWrites, WritesAsTold};
ghost use Rattle.transcript_law.specs.Prefixes.{AreFollowed, known_of, world_of};
ghost use Rattle.script_text.specs.declared.verb.ScriptLine.{ScriptLine};
ghost use Rattle.script_text.specs.Fitting.{ScriptFits};

/// After every line of a script each vBucket is as its lines tell: it holds a front of its branch's
/// history as a consumer at its position has it, its failover log tells where that branch comes
/// from, and with a complete snapshot it has the branch's documents and prepares there. Each is
/// sound, and no prepare is left at it that may be committed. A branch has at most one active
/// vBucket, and that is at or above every fork made from the branch. Each connection of a node is
/// told as its own; and as long as the numbers of lines rise, each that awaits an outcome awaits that of
/// its own durable write, whose prepare alone is outstanding under its number.
pub fn branches_are_followed()
    ensures { (script : List ScriptLine) → ScriptFits script → AreFollowed (known_of script) (world_of script) }
{}

/// After every line of a script a vBucket is active on a branch exactly where the lines name it as the
/// branch's writer, on that branch and active. They name one writer of a branch, so there is one active
/// vBucket on it, or none.
pub fn writers_are_as_told()
    ensures { (script : List ScriptLine) → ScriptFits script → WritesAsTold (known_of script) (world_of script) }
{}

/// A branch without an heir stays so: where nobody is active on it by the lines of a script, and no link may
/// give it an heir, nobody is active on it after any more lines.
pub fn heirless_branches_stay()
    ensures { (script more : List ScriptLine) → ScriptFits (script ++ more) → (uuid : ℕ) → IsHeirless (known_of script) uuid → NobodyWrites (known_of (script ++ more)) (world_of (script ++ more)) uuid }
{}

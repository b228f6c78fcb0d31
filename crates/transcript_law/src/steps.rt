//! What holds of every line of a script.

ghost use Rattle.std.specs.Prelude.{ℕ};
ghost use Rattle.transcript_law.specs.Plainness.{ShowsAreShown, RefusedLinesKeep, TurnsAreTold};

/// A Show shows. A line that is refused where it stands changes no node and no link, makes no branch,
/// and tells of nothing. A promotion that is answered `ok` has its branch and role lines, and those of
/// what it commits, a follow or dead its role line, and a log its line. Behind the lines of a change
/// of role stand lines of the node's own clients, and no others.
pub fn plain_lines()
    ensures shown { ShowsAreShown }
    ensures refused { RefusedLinesKeep }
    ensures told { (n v : ℕ) → TurnsAreTold n v }
{}

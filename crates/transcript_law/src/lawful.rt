//! What the lines of a script tell.

ghost use Rattle.std.specs.Prelude.{ℕ, ◌≡◌, ◌<◌, ◌^◌, List, Option, Some, length};
ghost use Rattle.branch_model.specs.Logs.{kept_to, with_entry};
ghost use Rattle.node_world.specs.World.{groups};
ghost use Rattle.transcript_law.specs.Chronicles.{Chronicle, after_line};
ghost use Rattle.transcript_law.specs.Followers.{two_followed};
ghost use Rattle.transcript_law.specs.Lawfulness.{AllKnown, Lawful};
ghost use Rattle.transcript_law.specs.LinesTold.{number_of, risen_through};
ghost use Rattle.transcript_law.specs.Prefixes.{known_of};
ghost use Rattle.transcript_law.specs.Transcripts.{one_set, SetLinesAsk};
ghost use Rattle.script_text.specs.declared.verb.ScriptLine.{ScriptLine};
ghost use Rattle.script_text.specs.Fitting.{ScriptFits};
ghost use Rattle.script_text.specs.Scripts.{verb_lines};
ghost use Rattle.vb_events.specs.declared.event.Event.{Event};
ghost use Rattle.vb_events.specs.declared.event.Event.TheVariants as event;
ghost use Rattle.vb_types.specs.declared.role.LogEntry.{LogEntry};
ghost use Rattle.vb_types.specs.declared.role.Role.{Role};

/// Whatever a script says, its transcript is lawful: a branch id is given once, each change is made
/// by the active writer of its branch, above all earlier ones and all forks made from it, each
/// request for a stream comes over a link that was dialed for it and is answered as the failover
/// rule says, each snapshot that a stream begins is whole and is put in order, and nothing comes
/// behind a stream's end. Each follower takes over the log that its link's stream was granted with,
/// takes the markers and changes of that stream in their order, each change above all that it holds,
/// and goes back only where its request was sent back. Each vBucket is shown in its role, with its
/// log, at its last change, in its snapshot and with what its changes leave, and with a complete
/// snapshot exactly with its branch's documents and prepares there. Each line is answered by what it
/// counts, where it counts anything, and a seal by whether there was anything to seal. So is the
/// transcript of a script of one write, and that of one of a replica that follows.
pub fn groups_are_lawful()
    ensures all { (script : List ScriptLine) → ScriptFits script → Lawful script (groups script) }
    ensures one { Lawful one_set (groups one_set) }
    ensures followed { Lawful two_followed (groups two_followed) }
{}

/// The lines of a script that is shorter than 2^32 bytes have numbers that rise below 2^32: a transcript
/// of it knows the number of its last line, so what it tells of the commits of durable writes is judged.
pub fn numbers_rise()
    ensures rise { (bytes : List ℕ) → length bytes < 2 ^ 32 → (line : ℕ) × (risen_through (Some 0) (verb_lines bytes) ≡ Some line) }
    ensures known { (script : List ScriptLine) → number_of (known_of script).last ≡ risen_through (Some 0) script }
{}

/// The lines of those scripts that set a key each send one frame, and it asks for that write.
pub fn set_lines_ask()
    ensures { SetLinesAsk }
{}

/// Whatever was read before, a vBucket's role is known behind its role line, and its failover log
/// behind the line that takes one over. A log that is known has the branch's entry behind a branch
/// line, and behind that of a rollback the entries up to where the vBucket went back. Behind a script
/// role, log and snapshot are known of every vBucket, and a front of a script is one; and so they are
/// behind one more line, whatever it tells. What a `chain` and a `done` line tell in front of their own
/// groups is of chains and of what is saved, so a line of a script is always judged by all three.
pub fn lines_are_known()
    ensures role { (told : Chronicle) (n v : ℕ) (new : Role) → (after_line told (event.Role n v new)).role_at n v ≡ Some (Some new) }
    ensures adopted { (told : Chronicle) (n v : ℕ) (log : List LogEntry) → (after_line told (event.Adopted n v log)).log_at n v ≡ Some log }
    ensures branch { (told : Chronicle) (n v uuid : ℕ) (parent : Option ℕ) (fork high : ℕ) (log : List LogEntry) → told.log_at n v ≡ Some log
        → (after_line told (event.Branch n v uuid parent fork high)).log_at n v ≡ Some (with_entry uuid fork log) }
    ensures rolled { (told : Chronicle) (n v named to : ℕ) (log : List LogEntry) → told.log_at n v ≡ Some log
        → (after_line told (event.Rolled n v named to)).log_at n v ≡ Some (kept_to to log) }
    ensures script { (script : List ScriptLine) → ScriptFits script → AllKnown (known_of script) }
    ensures line { (told : Chronicle) (line : Event) → AllKnown told → AllKnown (after_line told line) }
{}

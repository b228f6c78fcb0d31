//! What the process's number means.
ghost use Rattle.std.specs.Prelude.{◌≡◌, ◌≢◌, ◌↔◌, ◌<◌, ◌≤◌, ◌+◌, ◌*◌, length, ℕ, List, [], ◌∷◌, decimal, true, false, Some, None, Err};
ghost use Rattle.std.specs.IoError.{error_kind};
ghost use Rattle.std.specs.declared.io.Error.{Error as Fault};
ghost use Rattle.std.specs.declared.io.ErrorKind.TheVariants as kind;
ghost use Rattle.{dcp_io.specs.Moves.{Intake, Outlet}, dcp_io.specs.Statuses.{exit_code}, dcp_main.specs.Exits.{TellsMade, TellsRun, TellsStorm, TellsUsage}, dcp_main.specs.Runs.{GenRan, Ran, UsageTold}, dcp_main.specs.Words.{AcceptedWords, Answered, gen_words, says_run, starts_storm, storm_words}};
ghost use Rattle.{node_world.specs.World.{PlainWorld}, script_text.specs.Transcript.{group_text, print_of}, vb_events.specs.declared.event.Group.{Group}};
ghost use Rattle.script_gen.specs.Scripts.{gen_script};
ghost use Rattle.storm.specs.Told.{StormTold};
ghost use Rattle.dcp_main.specs.{Showing.{BothShown, FewTold, ShowsIfThere, ThreeTold}, Summaries.{newlines, summary_text}, Sums.{transcript_lines}};
ghost use Rattle.dcp_io.specs.declared.status.Status.{Status};
ghost use Rattle.dcp_io.specs.declared.status.Status.TheVariants as status;

/// The number of a status tells what a run read and wrote.
pub fn exits_in_numbers()
    ensures run { (old new : Intake) (before after : Outlet) (answer : Status)
        → Ran old new before after answer → TellsRun (exit_code answer) old new before after }
    ensures made { (seed count : ℕ) (old new : Intake) (before after : Outlet) (answer : Status)
        → GenRan seed count old new before after answer → TellsMade (exit_code answer) seed count old new before after }
    ensures storm { (seed clients writes : ℕ) (before after : Outlet) (answer : Status)
        → StormTold seed clients writes before after answer → TellsStorm (exit_code answer) seed clients writes before after }
    ensures usage { (before after : Outlet) (answer : Status) → UsageTold before after answer → TellsUsage (exit_code answer) before after }
{}

/// The words ask for a run exactly where they are one word of the letters `run`: no other word does, nor none, nor more. They ask
/// for a script that is made exactly where they are three: the letters `gen`, the decimal of a number of 64 bits, and the
/// decimal of one from 1 to 100,000, both with no sign and no needless zero. No words ask for both.
///
/// They ask for a storm exactly where they are four: the letters `storm`, the decimal of a number of 64 bits, that of
/// one from 1 to 64 and that of one from 1 to 1,000,000, and the product of the last two is at most 1,000,000. Words whose first has
/// those letters ask for no run and no script, and others for no storm.
pub fn words_in_letters()
    ensures run { (words : List (List ℕ)) → (says_run words ≡ true) ↔ (words ≡ (114 ∷ 117 ∷ 110 ∷ []) ∷ []) }
    ensures made { (words : List (List ℕ)) (seed count : ℕ) → (gen_words words ≡ Some (seed, count))
        ↔ ((words ≡ (103 ∷ 101 ∷ 110 ∷ []) ∷ decimal seed ∷ decimal count ∷ []) × (seed < 18446744073709551616) × (1 ≤ count) × (count ≤ 100000)) }
    ensures one { (words : List (List ℕ)) → says_run words ≡ true → gen_words words ≡ None }
    ensures storm { (words : List (List ℕ)) (seed clients writes : ℕ) → (storm_words words ≡ Some (seed, (clients, writes)))
        ↔ ((words ≡ (115 ∷ 116 ∷ 111 ∷ 114 ∷ 109 ∷ []) ∷ decimal seed ∷ decimal clients ∷ decimal writes ∷ []) × (seed < 18446744073709551616)
        × (1 ≤ clients) × (clients ≤ 64) × (1 ≤ writes) × (writes ≤ 1000000) × (clients * writes ≤ 1000000)) }
    ensures first { (words : List (List ℕ)) → (starts_storm words ≡ true)
        ↔ ((rest : List (List ℕ)) × (words ≡ (115 ∷ 116 ∷ 111 ∷ 114 ∷ 109 ∷ []) ∷ rest)) }
    ensures apart { (words : List (List ℕ)) → starts_storm words ≡ true → (says_run words ≡ false) × (gen_words words ≡ None) }
    ensures others { (words : List (List ℕ)) → starts_storm words ≡ false → storm_words words ≡ None }
{}

/// Where the words cannot be fetched for want of memory, the process ends as for that, and where they are
/// no text there are none to go by.
pub fn words_want_memory()
    ensures short { (fault : Fault) (answer : Answered) → error_kind fault ≡ kind.OutOfMemory → AcceptedWords (Err fault) answer → answer ≡ Err status.NoMemory }
    ensures no_text { (fault : Fault) (stop : Status) → error_kind fault ≢ kind.OutOfMemory → AcceptedWords (Err fault) (Err stop) → ⊥ }
{}

/// A transcript has a line for each script line, for each event and for each answer, whatever they
/// tell: that many newlines are in its text.
pub fn transcripts_in_lines()
    ensures group { (g : Group) → newlines (group_text g) ≡ 2 + length g.events }
    ensures all { (told : List Group) → newlines (print_of told) ≡ transcript_lines told }
{}

/// A line that shows a vBucket has one `shown` line, of that vBucket of that node, or it is refused and has
/// none, whatever the world is.
pub fn shows_have_one_line()
    ensures { (w : PlainWorld) (number n v : ℕ) → ShowsIfThere w number n v }
{}

/// The two lines that show a vBucket at the end of a script that is made are never refused, whatever its seed and its
/// count: so four lines tell of it.
pub fn generated_shows_are_shown()
    ensures shown { (seed count : ℕ) → BothShown (gen_script seed count) }
    ensures four { (seed count : ℕ) → newlines (summary_text (gen_script seed count)) ≡ 4 }
{}

/// What is told of a script that was made, in letters: of three groups, of fewer, and of two that show
/// nothing.
pub fn summaries_in_letters()
    ensures three { ThreeTold }
    ensures few { FewTold }
{}

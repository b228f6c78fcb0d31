//! What counts come to, as numbers, and what is told of an end, each the contract of a function that does nothing.
ghost use Rattle.std.specs.Prelude.{◌≡◌, ◌^◌, ◌-◌, ◌++◌, ℕ, [], ◌∷◌, List, decimal};
ghost use Rattle.dcp_io.specs.Counts.{raised};
ghost use Rattle.dcp_io.specs.Listed.{TakesAreListed, PutsAreListed, TakesInRow, PutsInRow};
ghost use Rattle.dcp_io.specs.Memory.{MemIntake, MemOutlet, MemTakes, MemPuts};
ghost use Rattle.dcp_io.specs.{declared.Took.{Took as TheTook}, declared.Put.{Put as ThePut}};
ghost use Rattle.dcp_io.specs.Statuses.{bad_text, exit_code};
ghost use Rattle.dcp_io.specs.declared.status.Status.{Status};
ghost use Rattle.dcp_io.specs.declared.status.Status.TheVariants as status;

/// A count of bytes, turns or faults rises by what came, also beyond 32 bits. It stands still at the
/// greatest number of 64 bits, and nothing that came leaves it as it was.
#[tactic(auto, unfolding(crate::specs::Counts::raised))]
pub fn counts_in_numbers()
    ensures first { (raised 0 1 ≡ 1) × (raised 0 7 ≡ 7) × (raised 3 0 ≡ 3) }
    ensures wide { (raised 255 1 ≡ 256) × (raised 65535 1 ≡ 65536) × (raised 4294967295 1 ≡ 4294967296) }
    ensures several { (raised 4294967290 10 ≡ 4294967300) × (raised 4294967296 4294967296 ≡ 8589934592) }
    ensures last { raised 18446744073709551614 1 ≡ 18446744073709551615 }
    ensures end { (raised 18446744073709551615 1 ≡ 18446744073709551615) × (raised 18446744073709551600 100 ≡ 18446744073709551615) }
{}

/// Each status is a number of its own.
pub fn statuses_in_numbers()
    ensures good { (exit_code status.Ok ≡ 0) × (exit_code status.Usage ≡ 2) × (exit_code status.BadLine ≡ 3) }
    ensures faults { (exit_code status.ReadFault ≡ 4) × (exit_code status.WriteFault ≡ 5) }
    ensures limits { (exit_code status.NoMemory ≡ 6) × (exit_code status.InputTooLong ≡ 11) }
    ensures distinct { (one other : Status) → exit_code one ≡ exit_code other → one ≡ other }
{}

/// What is written of a bad line, letter by letter: its words, its number and a newline.
pub fn bad_lines_in_letters()
    ensures { (line : ℕ) → bad_text line ≡ 98 ∷ 97 ∷ 100 ∷ 32 ∷ 108 ∷ 105 ∷ 110 ∷ 101 ∷ 32 ∷ (decimal line ++ 10 ∷ []) }
{}

/// A source or a sink in memory fails at exactly the calls whose numbers were chosen, counts each,
/// and neither takes nor appends anything there. Calls are numbered from 1, those that fail among
/// them; where none is chosen, none fails.
pub fn chosen_calls_fail()
    ensures takes { (old new : MemIntake) (room : List ℕ) (answer : TheTook) → MemTakes old new room answer → TakesAreListed old new room answer }
    ensures puts { (old new : MemOutlet) (bytes : List ℕ) (answer : ThePut) → MemPuts old new bytes answer → PutsAreListed old new bytes answer }
    ensures takes_in_row { TakesInRow }
    ensures puts_in_row { PutsInRow }
{}

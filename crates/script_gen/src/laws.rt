//! What holds of generated scripts, in the subject's own words.
ghost use Rattle.std.specs.Prelude.{◌<◌, ◌^◌, ℕ};
ghost use Rattle.script_gen.specs.Laws.{GeneratesText, KeysAreNumbered, LinesStand, WritesAsk};
ghost use Rattle.script_gen.specs.Scripts.{gen_script};
ghost use Rattle.script_text.specs.Fitting.{ScriptFits};
ghost use Rattle.script_gen.specs.Rows.{Edges, FirstStep, OneWrite, Removal, SixLines};

/// Where each line of a generated script stands, and its number.
pub fn generated_lines_stand()
    ensures { (seed count : ℕ) → LinesStand seed count }
{}

/// What each write asks, as a client's connection reads it.
pub fn generated_writes_ask()
    ensures { (i x : ℕ) → i < 2 ^ 32 → WritesAsk i x }
{}

/// A generated script is a text of the grammar, which says its lines; so each line is within the
/// grammar's limits.
pub fn generated_scripts_are_text()
    ensures text { GeneratesText }
    ensures fits { (seed count : ℕ) → count < 2 ^ 32 → ScriptFits (gen_script seed count) }
{}

/// Keys are k0 to k999.
pub fn generated_keys()
    ensures { KeysAreNumbered }
{}

/// In numbers: the first step, the edges of a word's bits, a removal, the script of one write as verbs
/// and as text, and where the lines behind some writes stand.
pub fn generated_in_numbers()
    ensures step { FirstStep }
    ensures edges { Edges }
    ensures removal { Removal }
    ensures one { OneWrite }
    ensures six { SixLines }
{}

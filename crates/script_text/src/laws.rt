//! What the definitions of scripts mean, in the subject's own words.
ghost use Rattle.std.specs.Prelude.{◌≡◌, ◌≢◌, ◌↔◌, ◌<◌, ◌^◌, ◌⊎◌, ℕ, List, length, Some, decimal};
ghost use Rattle.std.specs.List.{All, flat_map, join_with_byte};
ghost use Rattle.hex.specs.Hex.{IsBytes};
ghost use Rattle.script_text.specs.Numbers.{number_of};
ghost use Rattle.script_text.specs.Lines.{lines_of, words_of, ended, with_newline};
ghost use Rattle.script_text.specs.Grammar.{verb_of};
ghost use Rattle.script_text.specs.Sayings.{Says, IsHex, IsHexOf, IsBlank, IsOutside, StandsFirstBad};
ghost use Rattle.script_text.specs.Fitting.{ScriptFits};
ghost use Rattle.script_text.specs.Ranges.{IsGroupRanged};
ghost use Rattle.script_text.specs.Transcript.{hex_text, print_of};
ghost use Rattle.vb_events.specs.declared.event.Group.{Group};
ghost use Rattle.script_text.specs.Scripts.{line_said, IsScript, FirstBad};
ghost use Rattle.script_text.specs.Wordings.{LevelsInWords, ActsInWords, DurableWords, ChainsInWords, ChainsAreRead, ChainsAreRefused, AcknowledgementWords, SavingInWords, SavingWords, StopsInWords, StopWords, StopsAreRead, StopsAreRefused, WindowWords, StateWords, LinksAreRead, LinksAreRefused, PullsAreRead, PullsAreRefused, TrimsAreRead, TrimsAreRefused};
ghost use Rattle.script_text.specs.Letters.{ChangesInLetters, ClientsInLetters, GroupsInLetters, StreamsInLetters, WordsInLetters};
ghost use Rattle.script_text.specs.Printed.{CausesInLetters, LinesInLetters};
ghost use Rattle.script_text.specs.declared.script.Said.TheVariants as said;
ghost use Rattle.script_text.specs.declared.verb.Verb.{Verb};
ghost use Rattle.script_text.specs.declared.verb.ScriptLine.{ScriptLine};

/// A text says a number exactly where it is the number's decimal, and the number fits 64 bits.
pub fn numbers_are_decimals()
    ensures { (text : List ℕ) (n : ℕ) → (number_of text ≡ Some n) ↔ ((text ≡ decimal n) × (n < 2 ^ 64)) }
{}

/// The lines of a script, each with its newline, are the script, and no line holds a newline.
pub fn lines_make_the_script()
    ensures joined { (bytes : List ℕ) → flat_map ended (lines_of bytes) ≡ with_newline bytes }
    ensures plain { (bytes : List ℕ) → All (λ line. All (λ b. b ≢ 10) line) (lines_of bytes) }
{}

/// The words of a line, with single spaces between, are the line, and no word holds a space.
pub fn words_make_the_line()
    ensures joined { (line : List ℕ) → join_with_byte 32 (words_of line) ≡ line }
    ensures plain { (line : List ℕ) → All (λ word. All (λ b. b ≢ 32) word) (words_of line) }
{}

/// The words of a line say a verb exactly where the line is the verb's spelling. A line is read as
/// a verb exactly there too; it is passed over exactly where it is empty or begins with a semicolon;
/// and it is bad exactly where it is neither.
pub fn lines_are_spellings()
    ensures spelled { (line : List ℕ) (verb : Verb) → (verb_of (words_of line) ≡ Some verb) ↔ Says line verb }
    ensures read { (number : ℕ) (line : List ℕ) (read : ScriptLine)
        → (line_said number line ≡ said.Line read) ↔ ((read.line ≡ number) × Says line read.verb) }
    ensures blank { (number : ℕ) (line : List ℕ) → (line_said number line ≡ said.Nothing) ↔ IsBlank line }
    ensures bad { (number : ℕ) (line : List ℕ) (bad : ℕ) → (line_said number line ≡ said.Bad bad) ↔ ((bad ≡ number) × IsOutside line) }
{}

/// A text says bytes exactly where it is a positive even number of hexadecimal digits of either
/// case, and the digits in which a transcript shows bytes say them.
pub fn bytes_are_digits()
    ensures said { (text : List ℕ) → ((bytes : List ℕ) × IsHexOf text bytes) ↔ IsHex text }
    ensures shown { (bytes : List ℕ) → IsBytes bytes → 0 < length bytes → IsHexOf (hex_text bytes) bytes }
{}

/// Bytes are one script, or they have one first bad line, and not both. The first bad line's number
/// says where it stands among the lines, and none before it is bad.
pub fn script_or_bad_line()
    ensures one { (bytes : List ℕ) → ((script : List ScriptLine) × IsScript bytes script) ⊎ ((line : ℕ) × FirstBad bytes line) }
    ensures not_both { (bytes : List ℕ) (script : List ScriptLine) (line : ℕ)
        → IsScript bytes script → FirstBad bytes line → ⊥ }
    ensures one_script { (bytes : List ℕ) (script other : List ScriptLine)
        → IsScript bytes script → IsScript bytes other → script ≡ other }
    ensures one_line { (bytes : List ℕ) (line other : ℕ) → FirstBad bytes line → FirstBad bytes other → line ≡ other }
    ensures first { (bytes : List ℕ) (line : ℕ) → FirstBad bytes line → StandsFirstBad (lines_of bytes) line }
{}

/// Each line of a script that was read is within its grammar's limits: node, vBucket, connection and
/// link, buffer, branch, clock, what it moves or asks for, and the bytes that a client sends.
pub fn lines_fit()
    ensures { (bytes : List ℕ) (script : List ScriptLine) → IsScript bytes script → ScriptFits script }
{}

/// A durable write is told by `prepare`, `commit` and `abort`, and by its level, which is 1, 2 or 3;
/// and a prepare that waits by `prep`.
pub fn durable_writes_in_words()
    ensures levels { LevelsInWords }
    ensures acts { ActsInWords }
    ensures lines { DurableWords }
{}

/// Chains have words of their own. The lines `chain` and `tick` say what they say by literal text, up to
/// their limits, and nothing past these. What a chain's members acknowledge is told by `ack` and its
/// numbers where a replica writes it, and by `acked` and its numbers where it is counted; and `chain-bad`
/// is a cause.
pub fn chains_in_words()
    ensures words { ChainsInWords }
    ensures lines { AcknowledgementWords }
    ensures read { ChainsAreRead }
    ensures refused { ChainsAreRefused }
{}

/// What is saved and what is not is told by words of its own: `batch` and its numbers; `stat` and its
/// numbers; `disk` where a link or a line ended as the disk failed, or a pull as a journal can't be
/// read; `wait-saved` where a pull waits; and the causes `batch-out`, `nothing-taken` and `closed`.
pub fn savings_in_words()
    ensures words { SavingInWords }
    ensures lines { SavingWords }
{}

/// Nodes that stop and start again have words of their own. The lines `stop`, `fail`, `crash` and
/// `start` say what they say by literal text, up to their limits, and nothing past these. `failed` and
/// `stopped` tell what an armed call met, and `node-up`, `node-down`, `ids-short` and `stopped` are causes.
pub fn stops_in_words()
    ensures words { StopsInWords }
    ensures lines { StopWords }
    ensures read { StopsAreRead }
    ensures refused { StopsAreRefused }
{}

/// Flow control has words of its own. The line `link` says what it says by literal text, with a buffer
/// up to its limit, and nothing past it; and `full` tells that a pull stopped at a shut window.
pub fn windows_in_words()
    ensures words { WindowWords }
    ensures read { LinksAreRead }
    ensures refused { LinksAreRefused }
{}

/// A vBucket that is handed over has words of its own: `state`, the stream and a role where a state is put,
/// and `wait-state` where a pull waits for the answer to one.
pub fn states_in_words()
    ensures { StateWords }
{}

/// Stream frames are asked for by `pull`, of a client's connection, and by `pump`, of a link. These lines
/// say what they say by literal text, from one frame up to their limit, and nothing past it.
pub fn pulls_in_words()
    ensures read { PullsAreRead }
    ensures refused { PullsAreRefused }
{}

/// A vBucket gives up the front of its spans by `trim`, and a link's stream loses its cursor by `drop`.
/// These lines say what they say by literal text, up to their limits, and nothing past these.
pub fn trims_in_words()
    ensures read { TrimsAreRead }
    ensures refused { TrimsAreRefused }
{}

/// Lists of groups that print the same text are the same.
pub fn print_tells()
    ensures { (groups others : List Group) → All IsGroupRanged groups → All IsGroupRanged others
        → print_of groups ≡ print_of others → groups ≡ others }
{}

/// The causes of every day, and lines of branches, vBuckets and streams, letter by letter.
pub fn transcripts_in_letters()
    ensures causes { CausesInLetters }
    ensures lines { LinesInLetters }
{}

/// Lines of changes, of requests for streams, of logs and of answers to clients, lines of the streams of
/// clients, and the words of roles, acts and ends, letter by letter.
pub fn streams_in_letters()
    ensures changes { ChangesInLetters }
    ensures streams { StreamsInLetters }
    ensures clients { ClientsInLetters }
    ensures words { WordsInLetters }
{}

/// A line's number comes first, then what happened in its order, then the answer; and the groups stand in
/// their order.
pub fn groups_in_letters()
    ensures { GroupsInLetters }
{}

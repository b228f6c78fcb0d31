//! What reading a transcript back means, in the subject's own words.
ghost use Rattle.std.specs.Prelude.{◌≡◌, ◌+◌, ◌*◌, ◌<◌, ◌≤◌, ◌==◌, ◌⊎◌, ℕ, List, length, take};
ghost use Rattle.std.specs.List.{All, count_by, flat_map};
ghost use Rattle.vb_events.specs.declared.event.Answer.{Answer};
ghost use Rattle.vb_events.specs.declared.event.Event.{Event};
ghost use Rattle.vb_events.specs.declared.event.Group.{Group};
ghost use Rattle.script_text.specs.Lines.{lines_of, ended};
ghost use Rattle.script_text.specs.Transcript.{answer_text, event_text, print_of};
ghost use Rattle.script_text.specs.Held.{IsAnswerHeld, IsEventHeld, IsGroupHeld};
ghost use Rattle.script_text.specs.ReadBack.{IsPlain, IsTranscript, GoesOn, BreaksAt};
ghost use Rattle.script_text.specs.ReadRows.{ReadInLetters, ClientsReadInLetters, StatesReadInLetters, BreaksInLetters, ClientsBreakInLetters, StatesBreakInLetters, UnreadInLetters, UnreadBreaksInLetters};

/// The text of groups is a transcript, of these groups alone. Bytes are a transcript, or they break off
/// at one line, and not both.
pub fn transcripts_read_back()
    ensures printed { (groups : List Group) → All IsGroupHeld groups → IsTranscript (print_of groups) groups }
    ensures one { (bytes : List ℕ) → ((groups : List Group) × IsTranscript bytes groups) ⊎ ((line : ℕ) × BreaksAt bytes line) }
    ensures not_both { (bytes : List ℕ) (groups : List Group) (line : ℕ) → IsTranscript bytes groups → BreaksAt bytes line → ⊥ }
    ensures one_transcript { (bytes : List ℕ) (groups others : List Group)
        → IsTranscript bytes groups → IsTranscript bytes others → groups ≡ others }
    ensures one_line { (bytes : List ℕ) (line other : ℕ) → BreaksAt bytes line → BreaksAt bytes other → line ≡ other }
{}

/// Where bytes break off, some transcript begins with each front of the lines before, and none with
/// these and the line itself, if it has a newline. That is one of the lines with a newline, or it is
/// the next one.
pub fn bad_lines_break_off()
    ensures earlier { (bytes : List ℕ) (line count : ℕ)
        → BreaksAt bytes line → count < line → GoesOn (flat_map ended (take count (lines_of bytes))) }
    ensures here { (bytes : List ℕ) (line : ℕ)
        → BreaksAt bytes line → line ≤ count_by (λ b. b == 10) bytes → ¬ GoesOn (flat_map ended (take line (lines_of bytes))) }
    ensures within { (bytes : List ℕ) (line : ℕ) → BreaksAt bytes line → line ≤ count_by (λ b. b == 10) bytes + 1 }
{}

/// The text of an event or an answer has no newline, and so a transcript has a line for each event, and
/// two more for each group.
pub fn events_are_lines()
    ensures event { (event : Event) → IsEventHeld event → IsPlain (event_text event) }
    ensures answer { (answer : Answer) → IsAnswerHeld answer → IsPlain (answer_text answer) }
    ensures counted { (groups : List Group) → All IsGroupHeld groups
        → length (lines_of (print_of groups)) ≡ length (flat_map (λ (g : Group). g.events) groups) + 2 * length groups }
{}

/// Short texts that are transcripts, and short texts that break off: at an event or an answer outside
/// a group, at a head inside one, at a last line with no newline, where the bytes end inside a group,
/// and at lines that are spelled otherwise than they are printed. And the same of lines of the streams
/// of clients, of states that are put on a stream, of pulls that wait for the answer to one, and of pulls
/// that end as a journal can't be read.
pub fn read_in_letters()
    ensures read { ReadInLetters }
    ensures breaks { BreaksInLetters }
    ensures clients { ClientsReadInLetters }
    ensures clients_break { ClientsBreakInLetters }
    ensures states { StatesReadInLetters }
    ensures states_break { StatesBreakInLetters }
    ensures unread { UnreadInLetters }
    ensures unread_breaks { UnreadBreaksInLetters }
{}

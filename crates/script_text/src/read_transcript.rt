//! Reads a transcript back into its groups.
ghost use Rattle.std.specs.Prelude.{◌≡◌, ◌<◌, ◌∷◌, [], length, IfOk, MatchOption, MatchResult};
ghost use Rattle.script_text.specs.declared.read_lines.Line.TheVariants as line;
ghost use Rattle.script_text.specs.ReadBack.{put_line, put_text, cut_lines, at_end, read_from, transcript_of, IsTranscript, BreaksAt};

use crate::read_lines::{Line, transcript_line};
use crate::script::{BadLine, newline};
use std::alloc::{AllocError, Global};
use vb_events::{Answer, Event, Group};
use vb_types::Listed;

/// What a transcript says, in its order.
pub type Groups = Listed<Group>;

/// A group whose answer is still to come.
#[derive(Drop)]
struct Opened {
    line: u64,
    events: Listed<Event>,
}

/// What is read so far.
#[derive(Drop)]
struct Reading {
    groups: Groups,
    opened: Option<Opened>,
}

/// What is read once a group's head stands behind what was read, if no group is open.
fn put_head(alloc: Global, reading: Reading, number: u64) -> Option<Reading>
    ensures { result ≡ put_line reading (line.Head number) }
{
    let Reading { groups, opened } = reading;
    match opened {
        Some(_) => None,
        None => {
            let events = Listed::new(alloc);
            let opened = Some(Opened {
                line: number,
                events,
            });
            Some(Reading { groups, opened })
        }
    }
}

/// What is read once an event stands behind what was read, if a group is open.
fn put_event(reading: Reading, event: Event) -> Result<Option<Reading>, AllocError>
    ensures { IfOk result (λ more. more ≡ put_line reading (line.Event event)) }
{
    let Reading { groups, opened } = reading;
    match opened {
        None => {
            drop(event);
            Ok(None)
        }
        Some(open) => {
            let Opened { line, mut events } = open;
            events.push(event)?;
            let opened = Some(Opened { line, events });
            Ok(Some(Reading { groups, opened }))
        }
    }
}

/// What is read once an answer stands behind what was read, if a group is open.
fn put_answer(reading: Reading, answer: Answer) -> Result<Option<Reading>, AllocError>
    ensures { IfOk result (λ more. more ≡ put_line reading (line.Answer answer)) }
{
    let Reading { mut groups, opened } = reading;
    match opened {
        None => Ok(None),
        Some(open) => {
            let Opened { line, events } = open;
            groups.push(Group {
                line,
                events,
                answer,
            })?;
            let opened = None;
            Ok(Some(Reading { groups, opened }))
        }
    }
}

/// What is read once a line stands behind what was read, if it is in place there.
fn put_line(alloc: Global, reading: Reading, line: Line) -> Result<Option<Reading>, AllocError>
    ensures { IfOk result (λ more. more ≡ put_line reading line) }
{
    match line {
        Line::Head(line) => Ok(put_head(alloc, reading, line)),
        Line::Event(event) => put_event(reading, event),
        Line::Answer(answer) => put_answer(reading, answer),
    }
}

/// The same of a line's text.
fn put_text(alloc: Global, reading: Reading, text: &[u8]) -> Result<Option<Reading>, AllocError>
    ensures { IfOk result (λ more. more ≡ put_text reading text.now) }
{
    match transcript_line(alloc, text)? {
        Some(line) => put_line(alloc, reading, line),
        None => Ok(None),
    }
}

/// The first line and what follows its newline, if there is a newline.
fn whole_line(bytes: &[u8]) -> Option<(&[u8], &[u8])>
    ensures { MatchOption result (cut_lines bytes.now ≡ bytes.now ∷ []) (λ cut.
        (cut_lines bytes.now ≡ cut.0.now ∷ cut_lines cut.1.now) × (length cut.1.now < length bytes.now)) }
{
    match newline(bytes) {
        Some(end) => Some((&bytes[..end], &bytes[end + 1..])),
        None => None,
    }
}

/// What the end of the bytes makes of what was read, where no newline follows.
fn ended(line: u64, reading: Reading, rest: &[u8]) -> Result<Groups, BadLine>
    ensures { result ≡ at_end line reading rest.now }
{
    if !rest.is_empty() {
        return Err(BadLine { line });
    }
    let Reading { groups, opened } = reading;
    match opened {
        None => Ok(groups),
        Some(_) => Err(BadLine { line }),
    }
}

/// The groups, or the first line that is bad.
#[tactic(auto, unfolding(crate::specs::ReadBack::transcript_of))]
fn read(alloc: Global, bytes: &[u8]) -> Result<Result<Groups, BadLine>, AllocError>
    ensures { IfOk result (λ read. read ≡ transcript_of bytes.now) }
{
    let groups = Listed::new(alloc);
    let opened = None;
    let mut reading = Reading { groups, opened };
    let mut line = 1;
    let mut rest = bytes;
    while let Some((text, after)) = whole_line(rest) {
        let Some(more) = put_text(alloc, reading, text)? else {
            return Ok(Err(BadLine { line }));
        };
        reading = more;
        line += 1;
        rest = after;
    }
    Ok(ended(line, reading, rest))
}

/// The groups whose text the bytes are, which is what `print` appends of each of them. Else the
/// number, from 1, of the first line that is none of a transcript or is out of place; a last line
/// with no newline is none, and where the bytes end inside a group it is the line that is missing.
pub fn parse_transcript(alloc: Global, bytes: &[u8]) -> Result<Result<Groups, BadLine>, AllocError>
    ensures { IfOk result (λ read.
        MatchResult read
        (λ groups. IsTranscript bytes.now groups)
        (λ bad. BreaksAt bytes.now bad.line)) }
{
    read(alloc, bytes)
}

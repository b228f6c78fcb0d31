//! Reads a line of a transcript: takes it for what it would say, and compares its text with the line.
ghost use Rattle.std.specs.Prelude.{◌≡◌, ◌++◌, IfOk, OnOk, map};
ghost use Rattle.std.specs.Str.{bytes_eq};
ghost use Rattle.script_text.specs.TakenLines.{as_ok, as_worded, line_taken};
ghost use Rattle.script_text.specs.ReadBack.{line_text, line_of};

use crate::events::push_event;
use crate::line::{says, words};
use crate::parts::push_number;
use crate::read_events::event;
use crate::read_words::{cause, long, why, word_at};
use crate::transcript::push_answer;
use bytes::BytesMut;
use std::alloc::{AllocError, Global};
use vb_events::{Answer, Event};

/// A line of a transcript.
#[derive(Drop)]
pub enum Line {
    /// The first of a group: its script line's number.
    Head(u64),
    /// An event.
    Event(Event),
    /// The last of a group.
    Answer(Answer),
}

/// An answer that is no refusal.
fn ok(words: &[&[u8]]) -> Answer
    ensures { result ≡ as_ok (map (λ word. word.now) words.now) }
{
    let number = long(word_at(words, 1));
    match words.len() {
        1 => Answer::Ok,
        2 => Answer::Number(number),
        _ => Answer::Pulled(number, why(word_at(words, 2))),
    }
}

/// What the words of a line that heads no group are taken for.
fn worded(alloc: Global, words: &[&[u8]]) -> Result<Option<Line>, AllocError>
    ensures { IfOk result (λ line. line ≡ as_worded (map (λ word. word.now) words.now)) }
{
    let word = word_at(words, 0);
    if says(word, b"ok") {
        return Ok(Some(Line::Answer(ok(words))));
    }
    if says(word, b"no") {
        let cause = cause(word_at(words, 1));
        return Ok(Some(Line::Answer(Answer::No(cause))));
    }
    match event(alloc, words)? {
        Some(event) => Ok(Some(Line::Event(event))),
        None => Ok(None),
    }
}

/// What a line is taken for.
#[tactic(auto, unfolding(crate::specs::TakenLines::line_taken))]
fn taken(alloc: Global, text: &[u8]) -> Result<Option<Line>, AllocError>
    ensures { IfOk result (λ line. line ≡ line_taken text.now) }
{
    if let [b'#', digits @ ..] = text {
        return Ok(Some(Line::Head(long(digits))));
    }
    let words = words(alloc, text)?;
    worded(alloc, &words)
}

/// A line, without its newline.
#[tactic(auto, unfolding(crate::specs::ReadBack::line_text))]
fn push_line(text: &mut BytesMut, line: &Line) -> Result<(), AllocError>
    ensures { OnOk result (text.new.items ≡ text.old.items ++ line_text line.now) }
{
    match line {
        Line::Head(number) => push_number(text, b'#', *number),
        Line::Event(event) => push_event(text, event),
        Line::Answer(answer) => push_answer(text, *answer),
    }
}

/// Whether a line has this text.
fn is_text(alloc: Global, line: &Line, text: &[u8]) -> Result<bool, AllocError>
    ensures { IfOk result (λ same. same ≡ bytes_eq (line_text line.now) text.now) }
{
    let mut spelled = BytesMut::with_capacity(alloc, text.len())?;
    push_line(&mut spelled, line)?;
    Ok(spelled.as_slice() == text)
}

/// What a line is, if it is one of a transcript.
#[tactic(auto, unfolding(crate::specs::ReadBack::line_of))]
pub fn transcript_line(alloc: Global, text: &[u8]) -> Result<Option<Line>, AllocError>
    ensures { IfOk result (λ line. line ≡ line_of text.now) }
{
    let Some(line) = taken(alloc, text)? else {
        return Ok(None);
    };
    match is_text(alloc, &line, text) {
        Ok(true) => Ok(Some(line)),
        Ok(false) => {
            drop(line);
            Ok(None)
        }
        Err(error) => {
            drop(line);
            Err(error)
        }
    }
}

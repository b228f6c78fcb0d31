//! Prints a transcript.
ghost use Rattle.std.specs.Prelude.{◌≡◌, ◌++◌, OnOk, OnErr};
ghost use Rattle.script_text.specs.Transcript.{StartsWith, answer_text, group_text};

use crate::events::push_event;
use crate::parts::{cause_word, push_count, push_number, push_word, why_word};
use bytes::BytesMut;
use std::alloc::{AllocError, Global};
use vb_events::{Answer, Group};

/// The last line of a group, without its newline.
pub fn push_answer(text: &mut BytesMut, answer: Answer) -> Result<(), AllocError>
    ensures ok { OnOk result (text.new.items ≡ text.old.items ++ answer_text answer) }
    ensures err { OnErr result (StartsWith text.new.items text.old.items) }
{
    match answer {
        Answer::Ok => text.extend_from_slice(b"ok"),
        Answer::Number(number) => push_count(text, b"ok", number),
        Answer::Pulled(frames, why) => {
            push_count(text, b"ok", frames)?;
            push_word(text, why_word(why))
        }
        Answer::No(cause) => {
            text.extend_from_slice(b"no")?;
            push_word(text, cause_word(cause))
        }
    }
}

/// Appends the lines of a group. An `Err` may have appended a part of them.
#[tactic(auto, unfolding(crate::specs::Transcript::group_text))]
fn push_group(text: &mut BytesMut, g: &Group) -> Result<(), AllocError>
    ensures ok { OnOk result (text.new.items ≡ text.old.items ++ group_text g.now) }
    ensures err { OnErr result (StartsWith text.new.items text.old.items) }
{
    push_number(text, b'#', g.line)?;
    text.extend_from_slice(b"\n")?;
    for event in g.events.as_slice() {
        push_event(text, event)?;
        text.extend_from_slice(b"\n")?;
    }
    push_answer(text, g.answer)?;
    text.extend_from_slice(b"\n")
}

/// Appends the text of a group. An `Err` appends nothing.
pub fn print(_alloc: Global, g: &Group, out: &mut BytesMut) -> Result<(), AllocError>
    ensures ok { OnOk result (out.new.items ≡ out.old.items ++ group_text g.now) }
    ensures err { OnErr result (out.new.items ≡ out.old.items) }
{
    let before = out.len();
    let printed = push_group(out, g);
    if printed.is_err() {
        out.truncate(before);
    }
    printed
}

//! Reads a script.
ghost use Rattle.std.specs.Prelude.{◌≡◌, ◌+◌, ◌^◌, ◌<◌, ◌≤◌, ◌==◌, ◌∷◌, [], length, position, IfOk, MatchOption, MatchResult};
ghost use Rattle.{std.specs.List.{All}, script_text.specs.Lines.{lines_of}, script_text.specs.Scripts.{is_blank, is_outside, line_said, lines_behind, verb_lines, IsScript, FirstBad}};

use crate::sent::{says_verb, verb_in};
use crate::verb::{Script, ScriptLine};
use bytes::BytesMut;
use memchr::memchr;
use std::alloc::{AllocError, Global};
use std::marker::Model;

/// The number, from 1, of the first line of a script that is outside the grammar.
#[derive(Clone, Copy, Debug, PartialEq, Eq)]
pub struct BadLine {
    pub line: u64,
}

/// What a line of a script says.
#[derive(Drop)]
enum Said {
    /// A verb.
    Line(ScriptLine),
    /// Nothing, and it counts in the numbering.
    Nothing,
    /// It is outside the grammar, and has this number.
    Bad(u64),
}

/// Whether a line is empty or a comment.
fn is_blank(text: &[u8]) -> bool
    ensures { result ≡ is_blank text.now }
{
    matches!(text, [] | [b';', ..])
}

/// What the line of this number says.
#[tactic(auto, unfolding(crate::specs::Scripts::line_said))]
fn read_line(alloc: Global, room: &mut BytesMut, line: u64, text: &[u8]) -> Result<Said, AllocError>
    ensures { IfOk result (λ said. said ≡ line_said line text.now) }
{
    if is_blank(text) {
        return Ok(Said::Nothing);
    }
    match verb_in(alloc, room, text)? {
        Some(verb) => Ok(Said::Line(ScriptLine { line, verb })),
        None => Ok(Said::Bad(line)),
    }
}

/// Whether a line is outside the grammar.
fn is_outside(alloc: Global, text: &[u8]) -> Result<bool, AllocError>
    ensures { IfOk result (λ outside. outside ≡ is_outside text.now) }
{
    if is_blank(text) {
        return Ok(false);
    }
    Ok(!says_verb(alloc, text)?)
}

/// Where the first newline stands.
#[tactic(auto, using(crate::proofs::Lines::first_is))]
pub fn newline(bytes: &[u8]) -> Option<usize>
    ensures { result ≡ position (λ b. b == 10) bytes.now }
{
    memchr(b'\n', bytes)
}

/// The first line, and what follows its newline.
fn first_line(bytes: &[u8]) -> (&[u8], &[u8])
    requires { 0 < length bytes.now }
    ensures lines { lines_of bytes.now ≡ result.0.now ∷ lines_of result.1.now }
    ensures shorter { length result.1.now < length bytes.now }
{
    match newline(bytes) {
        Some(end) => (&bytes[..end], &bytes[end + 1..]),
        None => (bytes, &[]),
    }
}

/// The lines of a script that say a verb, each with its number, or the first line that is outside
/// the grammar. Each line has at least one byte, so the numbers are at most the bytes.
pub fn parse(alloc: Global, bytes: &[u8]) -> Result<Result<Script, BadLine>, AllocError>
    ensures read { IfOk result (λ parsed.
        MatchResult parsed
        (λ script. IsScript bytes.now script)
        (λ bad. FirstBad bytes.now bad.line)) }
    ensures numbered { IfOk result (λ parsed.
        IfOk parsed (λ script. All (λ said. (1 ≤ said.line) × (said.line ≤ length bytes.now)) script)) }
{
    let mut script = Script::new(alloc);
    let mut room = BytesMut::new(alloc);
    let mut line = 0;
    let mut rest = bytes;
    while !rest.is_empty() {
        let (text, after) = first_line(rest);
        line += 1;
        match read_line(alloc, &mut room, line, text)? {
            Said::Line(said) => script.push(said)?,
            Said::Nothing => {}
            Said::Bad(line) => return Ok(Err(BadLine { line })),
        }
        rest = after;
    }
    Ok(Ok(script))
}

/// Whether the lines of a script are within the grammar, or which is the first that is outside. No
/// line is kept.
#[tactic(auto, using(crate::proofs::Steps::bad_first))]
pub fn check(alloc: Global, bytes: &[u8]) -> Result<Result<(), BadLine>, AllocError>
    ensures { IfOk result (λ checked.
        MatchResult checked
        (λ _. IsScript bytes.now (verb_lines bytes.now))
        (λ bad. FirstBad bytes.now bad.line)) }
{
    let mut line = 0;
    let mut rest = bytes;
    while !rest.is_empty() {
        let (text, after) = first_line(rest);
        line += 1;
        if is_outside(alloc, text)? {
            return Ok(Err(BadLine { line }));
        }
        rest = after;
    }
    Ok(Ok(()))
}

/// How far a script is read: the number of the last line that was read, and what follows that line.
#[derive(Drop)]
struct Place<'a> {
    line: u64,
    rest: &'a [u8],
}

impl<'a> Place<'a> {
    /// The next line that says a verb, if one follows.
    #[tactic(auto, using(crate::proofs::Steps::verb_first))]
    fn next(&mut self, alloc: Global, room: &mut BytesMut) -> Result<Option<ScriptLine>, AllocError>
        requires { self.old.line + length self.old.rest.now < 2 ^ 64 }
        ensures given { IfOk result (λ next. MatchOption next
            ((lines_behind self.old.line self.old.rest.now ≡ []) × (lines_behind self.new.line self.new.rest.now ≡ []))
            (λ line. lines_behind self.old.line self.old.rest.now ≡ line ∷ lines_behind self.new.line self.new.rest.now)) }
        ensures within { self.new.line + length self.new.rest.now ≤ self.old.line + length self.old.rest.now }
    {
        while !self.rest.is_empty() {
            let (text, after) = first_line(self.rest);
            self.line += 1;
            self.rest = after;
            match read_line(alloc, room, self.line, text)? {
                Said::Line(line) => return Ok(Some(line)),
                Said::Nothing => {}
                Said::Bad(_) => {}
            }
        }
        Ok(None)
    }
}

/// The lines of a script that say a verb, each with its number, read one after the other. The bytes of
/// short ones share the room.
#[derive(Drop)]
pub struct ScriptLines<'a> {
    alloc: Global,
    place: Place<'a>,
    room: BytesMut,
}

impl<'a> Model for ScriptLines<'a> {
    ghost use Rattle.std.specs.Prelude.{List, ◌+◌, ◌<◌, ◌^◌, length};
    ghost use Rattle.std.specs.Coded.{coded_list};
    ghost use Rattle.script_text.specs.declared.verb.ScriptLine.{ScriptLine};
    ghost use Rattle.script_text.specs.contracts.verb.ScriptLine as line_row;
    ghost use Rattle.script_text.specs.Scripts.{lines_behind};

    ghost Value = { List ScriptLine };

    ghost coded = { coded_list line_row.the_row.coded };

    ghost view = { λ l. lines_behind l.place.line l.place.rest.now };

    ghost invariant = { λ l. l.place.line + length l.place.rest.now < 2 ^ 64 };
}

impl<'a> ScriptLines<'a> {
    /// Those of a script, from the first.
    pub fn new(alloc: Global, bytes: &'a [u8]) -> ScriptLines<'a>
        ensures { result ≡ verb_lines bytes.now }
    {
        let place = Place {
            line: 0,
            rest: bytes,
        };
        let room = BytesMut::new(alloc);
        ScriptLines { alloc, place, room }
    }

    /// The next line, if one follows.
    pub fn next(&mut self) -> Result<Option<ScriptLine>, AllocError>
        ensures { IfOk result (λ next. MatchOption next ((self.old ≡ []) × (self.new ≡ [])) (λ line. self.old ≡ line ∷ self.new)) }
    {
        self.place.next(self.alloc, &mut self.room)
    }
}

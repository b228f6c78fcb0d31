//! Generates a script, one line at a time.
ghost use Rattle.std.specs.Prelude.{◌≡◌, ◌+◌, ◌<◌, ◌^◌, IfOk, OnErr, OnOk};
ghost use Rattle.std.specs.List.{slice_get};
ghost use Rattle.script_gen.specs.{Scripts.{opening, carrying, closing, gen_script, Gives}, Writes.{stepped, write_verb}};
ghost use Rattle.script_gen.specs.Courses.{fixed_verbs, part_behind, written, verbs_left};
ghost use Rattle.script_text.specs.declared.verb.Verb.TheVariants as verb;

use crate::writes::{stepped, write};
use script_text::{ClientVerb, LinkVerb, ScriptLine, VbVerb, Verb};
use std::alloc::{AllocError, Global};
use std::marker::Model;

/// How many bytes a line moves at most: all that there are.
const ALL: u64 = 1_000_000_000;

/// A part of a script with lines that are always the same.
#[derive(Clone, Copy)]
enum Part {
    /// The first lines.
    Opening,
    /// No line, before a write.
    Writing,
    /// The lines behind some writes.
    Carrying,
    /// The last lines.
    Closing,
}

/// How far a script has come.
#[derive(Clone, Copy)]
struct Course {
    part: Part,
    /// How many lines of the part were given.
    given: usize,
    /// How many writes are left, and how many were made.
    left: u32,
    made: u32,
    /// The word of the last write that was made, or the seed.
    word: u64,
}

fn at_vb(node: u8, what: VbVerb) -> Verb
    ensures { result ≡ verb.AtVb node 0 what }
{
    Verb::AtVb { node, vb: 0, what }
}

fn at_link(what: LinkVerb) -> Verb
    ensures { result ≡ verb.AtLink 1 what }
{
    Verb::AtLink { link: 1, what }
}

/// The line at a place of the opening, if there is one.
fn opening(at: usize) -> Option<Verb>
    ensures { result ≡ slice_get opening at }
{
    Some(match at {
        0 => Verb::Node { node: 0 },
        1 => Verb::Node { node: 1 },
        2 => at_vb(0, VbVerb::MakeActive { uuid: 1 }),
        3 => at_vb(1, VbVerb::MakeReplica),
        4 => Verb::AtClient {
            node: 0,
            client: 1,
            what: ClientVerb::Open,
        },
        5 => Verb::Link {
            id: 1,
            from: 0,
            to: 1,
            vb: 0,
            buffer: 1_000_000,
            takeover: false,
        },
        6 => at_link(LinkVerb::Up { bytes: ALL }),
        _ => return None,
    })
}

/// The line at a place of those behind some writes, if there is one.
fn carrying(at: usize) -> Option<Verb>
    ensures { result ≡ slice_get carrying at }
{
    Some(match at {
        0 => at_link(LinkVerb::Pump { frames: 1_000_000 }),
        1 => at_link(LinkVerb::Down { bytes: ALL }),
        2 => at_link(LinkVerb::Up { bytes: ALL }),
        3 => at_vb(0, VbVerb::Take),
        4 => at_vb(0, VbVerb::Save),
        5 => at_vb(0, VbVerb::Done),
        _ => return None,
    })
}

/// The line at a place of the last ones, if there is one.
fn closing(at: usize) -> Option<Verb>
    ensures { result ≡ slice_get closing at }
{
    Some(match at {
        0 => at_vb(0, VbVerb::Show),
        1 => at_vb(1, VbVerb::Show),
        _ => return None,
    })
}

impl Part {
    /// The line at a place of the part, if there is one.
    fn line(self, at: usize) -> Option<Verb>
        ensures { result ≡ slice_get (fixed_verbs self) at }
    {
        match self {
            Part::Opening => opening(at),
            Part::Writing => None,
            Part::Carrying => carrying(at),
            Part::Closing => closing(at),
        }
    }
}

/// The part that follows behind write i, where so many are left.
fn part_behind(i: u32, left: u32) -> Part
    ensures { result ≡ part_behind i left }
{
    if i % 64 == 0 || left == 0 {
        Part::Carrying
    } else {
        Part::Writing
    }
}

impl Course {
    /// Makes the next write. An `Err` changes nothing.
    fn write(&mut self, alloc: Global) -> Result<Verb, AllocError>
        requires left { 0 < self.old.left }
        requires made { self.old.made + self.old.left < 2 ^ 32 }
        ensures verb { IfOk result (λ verb. verb ≡ write_verb (self.old.made + 1) (stepped self.old.word)) }
        ensures ok { OnOk result (self.new ≡ written self.old) }
        ensures err { OnErr result (self.new ≡ self.old) }
    {
        let (made, left) = (self.made + 1, self.left - 1);
        let word = stepped(self.word);
        let verb = write(alloc, made, word)?;
        *self = Course {
            part: part_behind(made, left),
            given: 0,
            left,
            made,
            word,
        };
        Ok(verb)
    }

    /// The next verb, if one is to come. An `Err` changes nothing.
    #[tactic(auto, using(crate::proofs::Courses::course_steps))]
    fn next(&mut self, alloc: Global) -> Result<Option<Verb>, AllocError>
        requires { self.old.made + self.old.left < 2 ^ 32 }
        ensures given { IfOk result (λ next. Gives (verbs_left self.old) next (verbs_left self.new)) }
        ensures made { self.new.made + self.new.left ≡ self.old.made + self.old.left }
        ensures err { OnErr result (self.new ≡ self.old) }
    {
        if let Some(verb) = self.part.line(self.given) {
            self.given += 1;
            return Ok(Some(verb));
        }
        if let Part::Closing = self.part {
            return Ok(None);
        }
        if self.left == 0 {
            self.part = Part::Closing;
            self.given = 1;
            return Ok(Some(at_vb(0, VbVerb::Show)));
        }
        Ok(Some(self.write(alloc)?))
    }
}

/// A script that is being generated. A contract sees it as the lines that are still to come.
#[derive(Drop)]
pub struct Generator {
    alloc: Global,
    course: Course,
    /// The number of the next line.
    line: u64,
}

impl Model for Generator {
    ghost use Rattle.std.specs.Prelude.{List, ◌+◌, ◌<◌, ◌^◌, length};
    ghost use Rattle.std.specs.Coded.{coded_list};
    ghost use Rattle.script_text.specs.declared.verb.ScriptLine.{ScriptLine};
    ghost use Rattle.script_text.specs.contracts.verb.ScriptLine as line_row;
    ghost use Rattle.script_gen.specs.{Courses.{verbs_left}, Scripts.{numbered}};

    ghost Value = { List ScriptLine };

    ghost coded = { coded_list line_row.the_row.coded };

    ghost view = { λ g. numbered g.line (verbs_left g.course) };

    ghost invariant = { λ g. (g.course.made + g.course.left < 2 ^ 32) × (g.line + length (verbs_left g.course) < 2 ^ 64) };
}

impl Generator {
    /// The script of a seed and so many writes.
    #[tactic(auto, unfolding(crate::specs::Scripts::gen_script), using(crate::proofs::Places::fits_line))]
    pub fn new(alloc: Global, seed: u64, count: u32) -> Generator
        ensures { result ≡ gen_script seed count }
    {
        Generator {
            alloc,
            course: Course {
                part: Part::Opening,
                given: 0,
                left: count,
                made: 0,
                word: seed,
            },
            line: 1,
        }
    }

    /// The next line, if one is to come. An `Err` changes nothing.
    pub fn next(&mut self) -> Result<Option<ScriptLine>, AllocError>
        ensures given { IfOk result (λ next. Gives self.old next self.new) }
        ensures err { OnErr result (self.new ≡ self.old) }
    {
        let Some(verb) = self.course.next(self.alloc)? else {
            return Ok(None);
        };
        let line = self.line;
        self.line += 1;
        Ok(Some(ScriptLine { line, verb }))
    }
}

//! Runs a script that is made, and tells of it in few lines.
ghost use Rattle.std.specs.Prelude.{◌≡◌, ◌+◌, ◌*◌, ◌^◌, ◌<◌, ◌≤◌, ◌++◌, length, IfOk, OnOk, string_bytes};
ghost use Rattle.dcp_main.specs.{Sums.{kept, none_kept, kept_of, shown_in, text_of}, Summaries.{shown_line, shown_lines, summary_text}};
ghost use Rattle.{node_world.specs.Rests.{Rests}, node_world.specs.Stands.{WorldStands}, node_world.specs.World.{PlainWorld, groups, world_step}, script_gen.specs.Scripts.{gen_script}, script_text.specs.Transcript.{role_text}};

use node_world::World;
use script_gen::Generator;
use script_text::ScriptLine;
use std::alloc::{AllocError, Global};
use vb_events::{Event, Group};
use vb_types::Role;

/// What is kept of the groups of a script while it runs.
#[derive(Drop)]
pub struct Tally {
    /// How many lines the script has so far, and how many its transcript.
    script: u64,
    transcript: u128,
    /// The last group, and the one before it.
    before: Option<Group>,
    last: Option<Group>,
}

impl Tally {
    /// One more group.
    fn keep(&mut self, group: Group)
        requires lines { self.old.script + 1 < 2 ^ 64 }
        requires told { self.old.transcript + 2 + length group.events < 2 ^ 128 }
        ensures { self.new ≡ kept self.old group }
    {
        self.script += 1;
        self.transcript += 2 + group.events.as_slice().len() as u128;
        self.before = self.last.take();
        self.last = Some(group);
    }
}

/// Carries out a line, and keeps its group.
fn play(world: &mut World, summary: &mut Tally, line: ScriptLine) -> Result<(), AllocError>
    requires lines { summary.old.script + 1 < 2 ^ 64 }
    requires told { summary.old.transcript + 2 ^ 65 < 2 ^ 128 }
    ensures lines { OnOk result (summary.new.transcript ≤ summary.old.transcript + 2 ^ 65) }
    ensures played { OnOk result ((w : PlainWorld) → WorldStands world.old w → Rests w →
        WorldStands world.new (world_step w line).0 × Rests (world_step w line).0
        × (summary.new ≡ kept summary.old (world_step w line).1)) }
{
    let stepped = world.step(&line);
    drop(line);
    summary.keep(stepped?);
    Ok(())
}

/// Carries out the lines of the script of a seed and so many writes, one after the other.
fn run_made(alloc: Global, seed: u64, count: u32) -> Result<Tally, AllocError>
    ensures { IfOk result (λ summary. summary ≡ kept_of none_kept (groups (gen_script seed count))) }
{
    let mut script = Generator::new(alloc, seed, count);
    let mut world = World::new(alloc);
    let mut summary = Tally {
        script: 0,
        transcript: 0,
        before: None,
        last: None,
    };
    while let Some(line) = script.next()? {
        play(&mut world, &mut summary, line)?;
    }
    Ok(summary)
}

fn role_word(role: Role) -> &'static str
    ensures { result.now ≡ role_text role }
{
    match role {
        Role::Active => "active",
        Role::Replica => "replica",
        Role::Pending => "pending",
        Role::Dead => "dead",
    }
}

/// The line of an event where a vBucket was shown.
#[tactic(auto, unfolding(script_text::specs::Transcript::event_text, script_text::specs::Transcript::place_text, script_text::specs::Transcript::extent_text))]
fn push_shown_line(text: &mut String, event: &Event) -> Result<(), AllocError>
    ensures { OnOk result (string_bytes text.new ≡ string_bytes text.old ++ shown_line event.now) }
{
    match event {
        Event::Shown {
            node,
            vb,
            role,
            uuid,
            at,
            ss,
            se,
            docs,
            preps,
        } => {
            write!(text, "shown {node} {vb} {}", role_word(*role))?;
            writeln!(text, " {uuid} {at} {ss} {se} {docs} {preps}")
        }
        _ => Ok(()),
    }
}

/// The `shown` lines of a group.
fn push_shown(text: &mut String, group: &Group) -> Result<(), AllocError>
    ensures { OnOk result (string_bytes text.new ≡ string_bytes text.old ++ shown_lines group.now) }
{
    for event in group.events.as_slice() {
        push_shown_line(text, event)?;
    }
    Ok(())
}

/// The `shown` lines of a group, where there is one.
fn push_shown_in(text: &mut String, group: &Option<Group>) -> Result<(), AllocError>
    ensures { OnOk result (string_bytes text.new ≡ string_bytes text.old ++ shown_in group.now) }
{
    match group {
        None => Ok(()),
        Some(group) => push_shown(text, group),
    }
}

/// What is written of what was kept.
#[tactic(auto, unfolding(crate::specs::Sums::text_of))]
fn text_of(alloc: Global, summary: &Tally) -> Result<String, AllocError>
    ensures { IfOk result (λ text. string_bytes text ≡ text_of summary.now) }
{
    let (script, transcript) = (summary.script, summary.transcript);
    let mut text = format!(in alloc; "script {script}\ntranscript {transcript}\n")?;
    push_shown_in(&mut text, &summary.before)?;
    push_shown_in(&mut text, &summary.last)?;
    Ok(text)
}

/// Runs the script of a seed and so many writes, and tells how many lines it has, how many its
/// transcript has, and the `shown` lines of the last two groups.
#[tactic(auto, using(crate::proofs::Keeping::kept_summary))]
pub fn summarize(alloc: Global, seed: u64, count: u32) -> Result<String, AllocError>
    ensures { IfOk result (λ text. string_bytes text ≡ summary_text (gen_script seed count)) }
{
    let summary = run_made(alloc, seed, count)?;
    text_of(alloc, &summary)
}

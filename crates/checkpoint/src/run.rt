//! Changes by rising seqno, any of which may be taken away.
ghost use Rattle.std.specs.Prelude.{◌≡◌, ◌+◌, ◌<◌, ◌≤◌, ◌∷◌, ◌++◌, [], length, IfSome, IfNone, OnOk, OnErr};
ghost use Rattle.std.specs.VecDeque.{deque_capacity};
ghost use Rattle.std.specs.List.{list_any};
ghost use Rattle.std.specs.Option.{option_copied, option_to_list};
ghost use Rattle.vb_types.specs.Histories.{upto};
ghost use Rattle.vb_calls.specs.Streams.{is_seen};
ghost use Rattle.checkpoint.specs.Checkpoints.{has_seen, items_above};
ghost use Rattle.checkpoint.specs.Runs.{AreBelow, change_at, lacking};

use crate::holes::{close_up, drop_holes_behind, later, move_there, place_of, pop_last_above};
use std::alloc::{AllocError, Global};
use std::collections::VecDeque;
use std::marker::Model;
use vb_types::{Act, Change, Listed};

/// Changes by rising seqno, in one list. The entry of a change that is taken away stays as a hole,
/// until more entries are holes than not: then the list is closed up. So a change costs a constant
/// time from its push until it is moved out, but for the search for its seqno.
#[derive(Drop)]
pub struct Run {
    alloc: Global,
    /// Seqnos, each with its change or as a hole.
    entries: Vec<(u64, Option<Change>)>,
    /// How many changes are there.
    there: usize,
}

impl Model for Run {
    ghost use Rattle.std.specs.Prelude.{List};
    ghost use Rattle.std.specs.Coded.{coded_list};
    ghost use Rattle.vb_types.specs.declared.change.Change.{Change};
    ghost use Rattle.vb_types.specs.contracts.change.Change as change_row;
    ghost use Rattle.checkpoint.specs.Runs.{IsRun, changes_there};

    ghost Value = { List Change };

    ghost coded = { coded_list change_row.the_row.coded };

    ghost view = { λ r. changes_there r.entries.items };

    ghost invariant = { λ r. IsRun r.there r.entries.items };
}

impl Run {
    /// No change.
    pub fn new(alloc: Global) -> Run
        ensures { result ≡ [] }
    {
        Run {
            alloc,
            entries: Vec::new(alloc),
            there: 0,
        }
    }

    /// How many changes there are.
    pub fn len(&self) -> usize
        ensures { result ≡ length self.now }
    {
        self.there
    }

    /// The change with a seqno.
    pub fn get(&self, seq: u64) -> Option<&Change>
        ensures { option_copied result ≡ change_at seq self.now }
    {
        match place_of(&self.entries, seq) {
            Some(at) => self.entries[at].1.as_ref(),
            None => None,
        }
    }

    /// Puts a change behind all others. An `Err` changes nothing.
    pub fn push(&mut self, change: Change) -> Result<(), AllocError>
        requires { AreBelow change.seq self.now }
        ensures ok { OnOk result (self.new ≡ self.old ++ change ∷ []) }
        ensures err { OnErr result (self.new ≡ self.old) }
    {
        drop_holes_behind(&mut self.entries);
        self.entries.push((change.seq, Some(change)))?;
        self.there += 1;
        Ok(())
    }

    /// Takes the change with a seqno away. Takes no memory.
    pub fn remove(&mut self, seq: u64) -> Option<Change>
        ensures taken { result ≡ change_at seq self.old }
        ensures others { self.new ≡ lacking seq self.old }
    {
        let at = place_of(&self.entries, seq)?;
        let change = self.entries[at].1.take()?;
        self.there -= 1;
        close_up(&mut self.entries, self.there);
        Some(change)
    }

    /// Takes the last change away, if it is above a seqno. Takes no memory.
    pub fn pop_above(&mut self, last: u64) -> Option<Change>
        ensures some { IfSome result (λ c. (self.old ≡ self.new ++ c ∷ []) × (last < c.seq)) }
        ensures none { IfNone result ((self.new ≡ self.old) × (upto self.old last ≡ self.old)) }
    {
        let change = pop_last_above(&mut self.entries, last)?;
        self.there -= 1;
        close_up(&mut self.entries, self.there);
        Some(change)
    }

    /// Appends copies of the changes above a place. An `Err` may have appended some.
    pub fn copy_after(&self, place: u64, items: &mut Listed<Change>) -> Result<(), AllocError>
        ensures { OnOk result (items.new ≡ items.old ++ items_above place self.now) }
    {
        for (_, change) in later(&self.entries, place) {
            if let Some(change) = change {
                items.push(change.copy()?)?;
            }
        }
        Ok(())
    }

    /// Whether a stream at a place sees one of the changes, a `sync` one any.
    pub fn sees_after(&self, place: u64, sync: bool) -> bool
        ensures { result ≡ has_seen sync place self.now }
    {
        let later = later(&self.entries, place);
        later.iter().any(|(_, change)| sees(sync, change))
    }

    /// Moves all changes behind others, where there is room for them. Takes no memory.
    pub fn move_out(&mut self, into: &mut VecDeque<Change>)
        requires { length into.now.items + length self.now ≤ deque_capacity into.now }
        ensures items { into.new.items ≡ into.old.items ++ self.old }
        ensures room { deque_capacity into.new ≡ deque_capacity into.old }
        ensures empty { self.new ≡ [] }
    {
        let entries = std::mem::replace(&mut self.entries, Vec::new(self.alloc));
        self.there = 0;
        move_there(entries, into);
    }

    /// Takes all changes away. Takes no memory.
    pub fn clear(&mut self)
        ensures { self.new ≡ [] }
    {
        self.entries.clear();
        self.there = 0;
    }
}

/// Whether there is a change, and a stream sees it.
fn sees(sync: bool, change: &Option<Change>) -> bool
    ensures { result ≡ list_any (λ c. is_seen sync c.act) (option_to_list change.now) }
{
    match change {
        Some(change) => sees_act(sync, &change.act),
        None => false,
    }
}

/// Whether a stream sees an act, a `sync` one any.
fn sees_act(sync: bool, act: &Act) -> bool
    ensures { result ≡ is_seen sync act.now }
{
    sync || !matches!(act, Act::Prepare { .. } | Act::Abort { .. })
}

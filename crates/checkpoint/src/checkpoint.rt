//! A checkpoint that is open.
ghost use Rattle.std.specs.Prelude.{◌≡◌, ◌+◌, ◌*◌, ◌<◌, ◌≤◌, ◌++◌, true, [], length, OnOk, OnErr};
ghost use Rattle.std.specs.VecDeque.{deque_capacity};
ghost use Rattle.std.specs.Option.{option_copied};
ghost use Rattle.vb_types.specs.Histories.{Rises};
ghost use Rattle.vb_calls.specs.Spans.{change_weight};
ghost use Rattle.checkpoint.specs.Checkpoints.{empty_ckpt, ckpt_last, ckpt_with, cut_to, fits_in, item_at, items_above, items_weight, has_seen};

use crate::entries::{cut, enter, replace};
use crate::run::Run;
use crate::weights::{is_part_of_durable, weight_of};
use std::alloc::{AllocError, Global};
use std::collections::{HashMap, VecDeque};
use std::marker::Model;
use vb_calls::{MAX_ITEMS, MAX_WEIGHT, Origin};
use vb_types::{Change, Key, Listed};

/// A checkpoint that is open: changes by rising seqno, at most one of each key.
#[derive(Drop)]
pub struct Checkpoint {
    alloc: Global,
    above: u64,
    last: u64,
    origin: Origin,
    /// The changes by their seqnos.
    changes: Run,
    /// The seqno of each key's change.
    seqs: HashMap<Key, u64>,
    /// What the changes weigh.
    weight: u64,
}

impl Model for Checkpoint {
    ghost use Rattle.std.specs.HashMap as hash;
    ghost use Rattle.std.specs.Str.{bytes_eq};
    ghost use Rattle.checkpoint.specs.Checkpoints.{Ckpt};
    ghost use Rattle.checkpoint.specs.Codes.{ckpt_code};
    ghost use Rattle.checkpoint.specs.Finds.{Finds, IsMeasured};

    ghost Value = { Ckpt };

    ghost coded = { ckpt_code };

    ghost view = { λ k. record { above = k.above; origin = k.origin; items = k.changes } };

    ghost invariant = { λ k. Finds k.changes (hash.get bytes_eq k.seqs) × IsMeasured k.above k.last k.weight k.changes };
}

impl Checkpoint {
    /// No change yet, above a seqno.
    pub fn new(alloc: Global, above: u64, origin: Origin) -> Checkpoint
        ensures { result ≡ empty_ckpt above origin }
    {
        Checkpoint {
            alloc,
            above,
            last: above,
            origin,
            changes: Run::new(alloc),
            seqs: HashMap::new(alloc),
            weight: 0,
        }
    }

    /// How many changes there are.
    pub fn len(&self) -> usize
        ensures { result ≡ length self.now.items }
    {
        self.changes.len()
    }

    /// The seqno of the last change, or the one that the checkpoint is above.
    pub fn last(&self) -> u64
        ensures last { result ≡ ckpt_last self.now }
        ensures rises { Rises self.now.above result self.now.items }
        ensures light { items_weight self.now.items ≤ MAX_WEIGHT }
    {
        self.last
    }

    pub fn origin(&self) -> Origin
        ensures { result ≡ self.now.origin }
    {
        self.origin
    }

    pub fn above(&self) -> u64
        ensures { result ≡ self.now.above }
    {
        self.above
    }

    /// The change of a key.
    fn at(&self, key: &Key) -> Option<&Change>
        ensures { option_copied result ≡ item_at key.now self.now.items }
    {
        match self.seqs.get(key) {
            Some(seq) => self.changes.get(*seq),
            None => None,
        }
    }

    /// What the changes and one more weigh.
    fn weight_with(&self, change: &Change) -> u64
        ensures weight { result ≡ items_weight self.now.items + change_weight change.now }
        ensures bounded { result ≤ 2 * MAX_WEIGHT }
    {
        self.weight + weight_of(change)
    }

    /// Whether a change, the vBucket's `own` or a received one, enters the checkpoint.
    pub fn fits(&self, change: &Change, own: bool) -> bool
        ensures { result ≡ fits_in own self.now.items change.now }
    {
        let weight = self.weight_with(change);
        match self.at(&change.key) {
            None => (self.len() as u64) < MAX_ITEMS && weight <= MAX_WEIGHT,
            Some(earlier) => {
                own && !is_part_of_durable(&earlier.act)
                    && !is_part_of_durable(&change.act)
                    && weight.saturating_sub(weight_of(earlier)) <= MAX_WEIGHT
            }
        }
    }

    /// Takes in a change that fits. An `Err` changes nothing.
    pub fn put(&mut self, change: Change) -> Result<(), AllocError>
        requires fits { fits_in true self.now.items change ≡ true }
        requires above { ckpt_last self.now < change.seq }
        ensures ok { OnOk result (self.new ≡ ckpt_with self.old change) }
        ensures err { OnErr result (self.new ≡ self.old) }
    {
        let (seq, weight) = (change.seq, self.weight_with(&change));
        let earlier = enter(&mut self.changes, &mut self.seqs, change)?;
        self.weight = weight - replace(&mut self.changes, earlier);
        self.last = seq;
        Ok(())
    }

    /// Takes the changes above a seqno away again, which is that of the last one that stays. Takes no
    /// memory.
    pub fn cut_back(&mut self, last: u64)
        requires { ckpt_last (cut_to last self.now) ≡ last }
        ensures { self.new ≡ cut_to last self.old }
    {
        let freed = cut(&mut self.changes, &mut self.seqs, last);
        self.weight -= freed;
        self.last = last;
    }

    /// Appends copies of the changes above a place. An `Err` may have appended some.
    pub fn items_after(&self, place: u64, items: &mut Listed<Change>) -> Result<(), AllocError>
        ensures { OnOk result (items.new ≡ items.old ++ items_above place self.now.items) }
    {
        self.changes.copy_after(place, items)
    }

    /// Whether a stream at a place sees one of the changes, a `sync` one any and another one sets, removals and commits.
    pub fn has_seen(&self, place: u64, sync: bool) -> bool
        ensures { result ≡ has_seen sync place self.now.items }
    {
        self.changes.sees_after(place, sync)
    }

    /// Moves all changes behind those of `sealed`. The checkpoint is empty then, above its last change. An `Err` changes nothing.
    pub fn seal(&mut self, sealed: &mut VecDeque<Change>) -> Result<(), AllocError>
        ensures items { OnOk result (sealed.new.items ≡ sealed.old.items ++ self.old.items) }
        ensures empty { OnOk result (self.new ≡ empty_ckpt (ckpt_last self.old) self.old.origin) }
        ensures light { items_weight self.old.items ≤ MAX_WEIGHT }
        ensures err { OnErr result ((self.new ≡ self.old) × (sealed.new.items ≡ sealed.old.items)) }
    {
        sealed.reserve(self.changes.len())?;
        self.seal_in_room(sealed);
        Ok(())
    }

    /// The same where there is room for all changes. Takes no memory.
    pub fn seal_in_room(&mut self, sealed: &mut VecDeque<Change>)
        requires { length sealed.now.items + length self.now.items ≤ deque_capacity sealed.now }
        ensures items { sealed.new.items ≡ sealed.old.items ++ self.old.items }
        ensures room { deque_capacity sealed.new ≡ deque_capacity sealed.old }
        ensures empty { self.new ≡ empty_ckpt (ckpt_last self.old) self.old.origin }
        ensures light { items_weight self.old.items ≤ MAX_WEIGHT }
    {
        self.changes.move_out(sealed);
        self.seqs.clear();
        self.above = self.last;
        self.weight = 0;
    }

    /// Says where the changes of an empty checkpoint come from.
    pub fn open(&mut self, origin: Origin)
        requires { self.now.items ≡ [] }
        ensures { self.new ≡ empty_ckpt self.old.above origin }
    {
        self.origin = origin;
    }

    /// Takes all changes away; the next ones lie above a seqno. Takes no memory.
    pub fn reset(&mut self, above: u64)
        ensures { self.new ≡ empty_ckpt above self.old.origin }
    {
        self.changes.clear();
        self.seqs.clear();
        self.above = above;
        self.last = above;
        self.weight = 0;
    }
}

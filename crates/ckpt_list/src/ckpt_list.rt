//! The checkpoints of a vBucket, the last of which is open, and cursors over them.
ghost use Rattle.std.specs.Prelude.{◌≡◌, ◌≢◌, ◌<◌, ◌≤◌, ◌&&◌, nat_lt, true, Some, not, map, is_some, option_to_list, IfSome, length, IfOk, OnOk, OnErr};
ghost use Rattle.std.specs.FinMap as finite;
ghost use Rattle.std.specs.List.{find};
ghost use Rattle.vb_calls.specs.Spans.{all_spans, is_whole};
ghost use Rattle.vb_calls.specs.declared.span.Origin.TheVariants.{Own};
ghost use Rattle.cursor_set.specs.Cursors.{place_of, may_advance};
ghost use Rattle.ckpt_list.specs.Sound.{IsBatch, end_reaching};
ghost use Rattle.ckpt_list.specs.Trims.{trimmed};
ghost use Rattle.ckpt_list.specs.Windows.{ArePartsAbove, queued_all};
ghost use Rattle.ckpt_list.specs.Lists.{between, reach_of, ckpts_at, high_of, moved_cursor, spans_of, held_of, sealed_list, queued, stop_of, taken_by, window_of};

use crate::parts::{
    copies, end_above, ends_whole, first_above, first_seen, is_own, is_split_at, position_of,
    unless_split,
};
use crate::trims::{shed_ends, shed_items, shed_spans};
use crate::windows::{make_room, put_all, reopen, seal_all, seal_behind, span_of};
use checkpoint::{Checkpoint, weight_of};
use cursor_set::CursorSet;
use std::alloc::{AllocError, Global};
use std::cmp::max;
use std::collections::VecDeque;
use std::marker::Model;
use vb_calls::{MAX_WEIGHT, Origin, Span};
use vb_types::{Change, Listed, Position};

/// The checkpoints of a vBucket, and the cursors over them. The cursor 0 is always there.
#[derive(Drop)]
pub struct CkptList {
    alloc: Global,
    sealed: VecDeque<Span>,
    /// The live changes of the sealed checkpoints, by rising seqno.
    items: VecDeque<Change>,
    /// The open one.
    newest: Checkpoint,
    cursors: CursorSet,
    /// Where sealed checkpoints end that no part of a received snapshot of a sealed one goes beyond.
    wholes: VecDeque<u64>,
    floor: u64,
}

/// How many checkpoints, changes in all and in the open one, and cursors there are, and the seqno
/// above which changes are here.
#[derive(Clone, Copy, Debug, PartialEq, Eq)]
pub struct CkptStat {
    pub windows: u64,
    pub items: u64,
    pub open_items: u64,
    pub cursors: u64,
    pub floor: u64,
}

impl Model for CkptList {
    ghost use Rattle.ckpt_list.specs.Lists.{Ckpts};
    ghost use Rattle.ckpt_list.specs.Sound.{ckpts_code, HasWholes};

    ghost Value = { Ckpts };

    ghost coded = { ckpts_code };

    ghost view = { λ l. record { sealed = l.sealed.items; items = l.items.items; newest = l.newest; places = l.cursors; floor = l.floor } };

    ghost invariant = { λ l. HasWholes (record { sealed = l.sealed.items; items = l.items.items; newest = l.newest; places = l.cursors; floor = l.floor }) l.wholes.items };
}

impl CkptList {
    /// Nothing above a seqno, where the cursor 0 stands.
    pub fn new(alloc: Global, at: u64) -> Result<CkptList, AllocError>
        ensures { IfOk result (λ list. list ≡ ckpts_at at Own) }
    {
        let mut cursors = CursorSet::new(alloc);
        cursors.register(0, at)?;
        Ok(CkptList {
            alloc,
            sealed: VecDeque::new(alloc),
            items: VecDeque::new(alloc),
            newest: Checkpoint::new(alloc, at, Origin::Own),
            cursors,
            wholes: VecDeque::new(alloc),
            floor: at,
        })
    }

    /// Takes a change in: in the open checkpoint where that takes it, and else in a new one. An
    /// `Err` changes nothing.
    pub fn queue(&mut self, origin: Origin, change: Change) -> Result<(), AllocError>
        requires { high_of self.now < change.seq }
        ensures ok { OnOk result (self.new ≡ queued self.old origin change) }
        ensures err { OnErr result (self.new ≡ self.old) }
    {
        if self.newest.len() > 0 && self.newest.fits(&change, is_own(origin)) {
            return self.newest.put(change);
        }
        prove!(weight_of(&change) <= MAX_WEIGHT);
        let mut newest = Checkpoint::new(self.alloc, self.newest.last(), origin);
        newest.put(change)?;
        self.seal()?;
        self.newest = newest;
        Ok(())
    }

    /// Takes prepares, commits and aborts in, own ones by rising seqnos: all of them, or at an `Err` none.
    pub fn queue_all(&mut self, changes: Vec<Change>) -> Result<(), AllocError>
        requires { ArePartsAbove (high_of self.now) changes.items }
        ensures ok { OnOk result (self.new ≡ queued_all self.old changes.items) }
        ensures err { OnErr result (self.new ≡ self.old) }
    {
        let last = self.newest.last();
        let most = self.newest.len() + changes.len();
        let full = put_all(self.alloc, &mut self.newest, changes)?;
        let windows = full.len();
        if windows == 0 {
            return Ok(());
        }
        if let Err(error) = make_room(
            &mut self.sealed,
            &mut self.items,
            &mut self.wholes,
            windows,
            most,
        ) {
            reopen(full, &mut self.newest, last);
            return Err(error);
        }
        seal_all(&mut self.sealed, &mut self.items, &mut self.wholes, full);
        Ok(())
    }

    /// Seals the open checkpoint, and takes changes in as `queue_all` does: all of this, or at an `Err`
    /// nothing.
    pub fn seal_and_queue_all(&mut self, changes: Vec<Change>) -> Result<(), AllocError>
        requires { ArePartsAbove (high_of self.now) changes.items }
        ensures ok { OnOk result (self.new ≡ queued_all (sealed_list self.old) changes.items) }
        ensures err { OnErr result (self.new ≡ self.old) }
    {
        let last = self.newest.last();
        let most = self.newest.len() + changes.len();
        let mut newest = Checkpoint::new(self.alloc, last, self.newest.origin());
        let full = put_all(self.alloc, &mut newest, changes)?;
        make_room(
            &mut self.sealed,
            &mut self.items,
            &mut self.wholes,
            full.len() + 1,
            most,
        )?;
        seal_behind(
            &mut self.sealed,
            &mut self.items,
            &mut self.wholes,
            &mut self.newest,
        );
        seal_all(&mut self.sealed, &mut self.items, &mut self.wholes, full);
        self.newest = newest;
        Ok(())
    }

    /// The last seqno.
    pub fn high(&self) -> u64
        ensures { result ≡ high_of self.now }
    {
        self.newest.last()
    }

    /// The seqno above which changes are here.
    pub fn floor(&self) -> u64
        ensures { result ≡ self.now.floor }
    {
        self.floor
    }

    /// Seals the open checkpoint, and whether it had changes. An `Err` changes nothing.
    pub fn seal(&mut self) -> Result<bool, AllocError>
        ensures ok { OnOk result (self.new ≡ sealed_list self.old) }
        ensures open { IfOk result (λ sealed. sealed ≡ is_some (spans_of self.old).current) }
        ensures err { OnErr result (self.new ≡ self.old) }
    {
        if self.current().is_none() {
            return Ok(false);
        }
        let changes = self.newest.len();
        make_room(
            &mut self.sealed,
            &mut self.items,
            &mut self.wholes,
            1,
            changes,
        )?;
        seal_behind(
            &mut self.sealed,
            &mut self.items,
            &mut self.wholes,
            &mut self.newest,
        );
        Ok(true)
    }

    /// The open checkpoint's span, if it has changes.
    fn current(&self) -> Option<Span>
        ensures { result ≡ (spans_of self.now).current }
    {
        span_of(&self.newest)
    }

    /// Whether a snapshot that ends at `n` holds no received snapshot in part.
    pub fn whole(&self, n: u64) -> bool
        ensures { result ≡ is_whole n (all_spans (spans_of self.now)) }
    {
        ends_whole(&self.sealed, n) && self.is_open_whole(n)
    }

    /// The same of the open checkpoint alone.
    fn is_open_whole(&self, n: u64) -> bool
        ensures { result ≡ is_whole n (option_to_list (spans_of self.now).current) }
    {
        match self.current() {
            Some(span) => !is_split_at(&span, n),
            None => true,
        }
    }

    /// Where the next snapshot of a stream ends that stands at `place` and needs all up to `need`;
    /// `None` where there is none yet.
    pub fn whole_end(&self, place: u64, need: u64, sync: bool) -> Option<u64>
        ensures stop { result ≡ stop_of self.now place need sync }
        ensures end { IfSome result (λ n. self.now.newest.above < n → high_of self.now ≤ n) }
    {
        match first_seen(&self.items, place, sync) {
            Some(seen) => self
                .sealed_stop(max(seen, need) - 1)
                .or(self.open_stop(need)),
            None if self.newest.has_seen(place, sync) => self.open_stop(need),
            None => None,
        }
    }

    /// The first end above `n` of a sealed checkpoint where a snapshot may end.
    fn sealed_stop(&self, n: u64) -> Option<u64>
        ensures { result ≡ find (λ e. nat_lt n e && is_whole e (all_spans (spans_of self.now))) (map (λ w. w.last) self.now.sealed) }
    {
        unless_split(self.current(), first_above(&self.wholes, n))
    }

    /// The end of the open checkpoint, if it has changes and reaches `need`.
    fn open_stop(&self, need: u64) -> Option<u64>
        ensures { result ≡ end_reaching need (spans_of self.now).current }
    {
        match self.current() {
            Some(span) if need <= span.last => Some(span.last),
            _ => None,
        }
    }

    /// What a cursor is given, through the fewest checkpoints that reach `need`; `None` exactly
    /// where none above its place does. No other cursor moves. An `Err` changes nothing.
    pub fn take(&mut self, id: u64, need: u64) -> Result<Option<Listed<Change>>, AllocError>
        requires { is_some (place_of self.now.places id) ≡ true }
        ensures ok { IfOk result (λ items. (self.new, items) ≡ taken_by self.old id need) }
        ensures err { OnErr result (self.new ≡ self.old) }
    {
        let place = self.cursors.place(id).unwrap();
        let Some(end) = self.reach(place, need) else {
            return Ok(None);
        };
        let items = self.copied(place, end)?;
        self.cursors.advance(id, end);
        Ok(Some(items))
    }

    /// The least end of a checkpoint that is above a place and not below `need`.
    fn reach(&self, place: u64, need: u64) -> Option<u64>
        ensures reach { result ≡ reach_of self.now place need }
        ensures end { IfSome result (λ n. self.now.newest.above < n → high_of self.now ≤ n) }
    {
        match self.span_above(max(place, need.saturating_sub(1))) {
            Some(span) => Some(span.last),
            None => None,
        }
    }

    /// Moves a cursor on. Takes no memory.
    pub fn advance(&mut self, id: u64, to: u64)
        requires { may_advance (place_of self.now.places id) to ≡ true }
        ensures { self.new ≡ moved_cursor self.old id to }
    {
        self.cursors.advance(id, to);
    }

    /// Copies of the changes above a place and up to the end of a checkpoint.
    pub fn copied(&self, place: u64, end: u64) -> Result<Listed<Change>, AllocError>
        requires { self.now.newest.above < end → high_of self.now ≤ end }
        ensures { IfOk result (λ items. items ≡ between place end (held_of self.now)) }
    {
        let mut items = copies(self.alloc, &self.items, place, end)?;
        if end <= self.newest.above() {
            return Ok(items);
        }
        self.newest.items_after(place, &mut items)?;
        Ok(items)
    }

    /// The span of the first checkpoint that goes on above a seqno.
    fn span_above(&self, n: u64) -> Option<Span>
        ensures span { result ≡ find (λ w. nat_lt n w.last) (all_spans (spans_of self.now)) }
        ensures above { IfSome result (λ w. n < w.last) }
        ensures end { IfSome result (λ w. self.now.newest.above < w.last → high_of self.now ≤ w.last) }
    {
        end_above(&self.sealed, n).or(self.open_above(n))
    }

    /// The span of the open checkpoint, if it goes on above a seqno.
    fn open_above(&self, n: u64) -> Option<Span>
        ensures { result ≡ find (λ w. nat_lt n w.last) (option_to_list (spans_of self.now).current) }
    {
        match self.current() {
            Some(span) if n < span.last => Some(span),
            _ => None,
        }
    }

    /// The snapshot that the changes above a place stand in, up to where their checkpoint ends.
    pub fn window(&self, place: u64) -> Option<Position>
        ensures window { result ≡ window_of self.now place }
        ensures above { IfSome result (λ p. place < p.at) }
        ensures batch { IfSome result (λ p. IsBatch place p.at (between place p.at (held_of self.now))) }
        ensures end { IfSome result (λ p. self.now.newest.above < p.at → high_of self.now ≤ p.at) }
    {
        prove!(self.newest.above() <= self.newest.last());
        match self.span_above(place) {
            Some(span) => Some(position_of(&span)),
            None => None,
        }
    }

    /// Makes a cursor, or moves the one that is there, and whether it is new. An `Err` changes nothing.
    pub fn place_cursor(&mut self, id: u64, place: u64) -> Result<bool, AllocError>
        ensures ok { OnOk result (self.new ≡ moved_cursor self.old id place) }
        ensures new { IfOk result (λ fresh. fresh ≡ not (is_some (place_of self.old.places id))) }
        ensures err { OnErr result (self.new ≡ self.old) }
    {
        let fresh = self.cursors.place(id).is_none();
        self.cursors.put(id, place)?;
        Ok(fresh)
    }

    /// The place of a cursor.
    pub fn place(&self, id: u64) -> Option<u64>
        ensures { result ≡ place_of self.now.places id }
    {
        self.cursors.place(id)
    }

    /// The place of the cursor 0.
    pub fn place_of_zero(&self) -> u64
        ensures { Some result ≡ place_of self.now.places 0 }
    {
        self.cursors.place(0).unwrap()
    }

    /// Takes a cursor away, and whether it was there. Takes no memory.
    pub fn drop_cursor(&mut self, id: u64) -> bool
        requires { id ≢ 0 }
        ensures places { self.new ≡ record self.old { places = finite.remove self.old.places id } }
        ensures there { result ≡ is_some (place_of self.old.places id) }
    {
        self.cursors.remove(id)
    }

    /// Takes the sealed checkpoints away that end at most at the saved number and at each cursor's place,
    /// and how many these are. Takes no memory.
    pub fn trim(&mut self, saved: u64) -> u64
        ensures { (self.new, result) ≡ trimmed self.old saved }
    {
        let to = self.cursors.least_with(saved);
        let before = self.sealed.len();
        self.floor = shed_spans(&mut self.sealed, to, self.floor);
        shed_items(&mut self.items, self.floor);
        shed_ends(&mut self.wholes, self.floor);
        (before - self.sealed.len()) as u64
    }

    /// Empties the list: the next changes lie above a seqno, where the cursor 0 stands and no other.
    /// Takes no memory.
    pub fn reset(&mut self, at: u64)
        ensures { self.new ≡ ckpts_at at self.old.newest.origin }
    {
        self.sealed.clear();
        self.items.clear();
        self.wholes.clear();
        self.newest.reset(at);
        self.cursors.reset(at);
        self.floor = at;
    }

    /// How many live changes there are. No more than seqnos, so their number has 64 bits.
    fn count(&self) -> u64
        ensures { result ≡ length (held_of self.now) }
    {
        prove!(self.newest.above() <= self.newest.last());
        self.items.len() as u64 + self.newest.len() as u64
    }

    /// Numbers.
    pub fn stat(&self) -> CkptStat
        ensures windows { result.windows ≡ length (all_spans (spans_of self.now)) }
        ensures items { result.items ≡ length (held_of self.now) }
        ensures open_items { result.open_items ≡ length self.now.newest.items }
        ensures cursors { result.cursors ≡ finite.len self.now.places }
        ensures floor { result.floor ≡ self.now.floor }
        ensures zero { is_some (place_of self.now.places 0) ≡ true }
    {
        let open = self.newest.len();
        CkptStat {
            windows: self.sealed.len() as u64 + (open > 0) as u64,
            items: self.count(),
            open_items: open as u64,
            cursors: self.cursors.len() as u64,
            floor: self.floor,
        }
    }
}

//! Calls of a turn, and its seats.
ghost use Rattle.std.specs.Prelude.{◌≡◌, ℕ, ◌<◌, true, [], ◌∷◌, ◌++◌, IfOk, OnErr, Some, max, MatchOption};
ghost use mathlib.Core.Option.{some};
ghost use Rattle.vb_turn.specs.Turning.{all_parts, opened, left, right, added, without_turn, Took, Orderly};
ghost use Rattle.vb_turn.specs.History.{Sound, Ends};
ghost use Rattle.vb_turn.specs.Words.{IsSeatOf, view};
ghost use Rattle.vb_turn.specs.Seats.{IsSame, Holds, Stepped, Joined, Finished, Called, Published, Gathered, ClosesWith};

use crate::machine::Machine;
use crate::rule::{Claim, Cut, Gather, Load, Publish, Release};
use crate::seat::{ALL_PARTS, Gate, Own, Turn, TurnSeat};
use crate::view::{Entry, Parts};
use atomic_table::{Refused, Table};
use std::alloc::{AllocError, Global};
use std::hint::spin_loop;
use std::marker::Brand;
use std::snapshot::Snapshot;
use std::sync::Wait;
use std::sync::atomic::AtomicU64;
use std::sync::atomic::Ordering::SeqCst;

/// The word that has the largest number that the object's states have shown.
const NUMBER: usize = 0;

/// The word that is 1 while a seat has the turn, and else 0.
const TURN: usize = 1;

/// How often a seat looks whether the turn is free before it parks, which is a call of the system: as
/// often as Rust's `Mutex` does.
const LOOKS: u32 = 100;

impl<M: Machine<C, R> + Drop, C, R> Turn<M, C, R> {
    /// The turn of an object, and a seat with all parts, which has seen nothing. An `Err` is want of
    /// memory, and the object is gone.
    pub fn new(alloc: Global, object: M) -> Result<(Turn<M, C, R>, TurnSeat<M, C, R>), AllocError>
        ensures { IfOk result (λ t. IsSeatOf t.0 t.1 × (view t.1 ≡ opened object)) }
    {
        let opening = Snapshot::of(&object);
        let number = object.high();
        let mut slots = Vec::with_capacity(alloc, 1)?;
        slots.push_reserved(object);
        match Table::new(alloc, &[number, 0], slots, &opening) {
            Ok((table, own)) => Ok((
                Turn {
                    table,
                    waiting: AtomicU64::new(0),
                },
                TurnSeat {
                    own,
                    parts: ALL_PARTS,
                },
            )),
            Err(Refused { slots: _ }) => Err(AllocError),
        }
    }
}

impl<M: Machine<C, R>, C, R> Turn<M, C, R> {
    /// Waits until the turn is free, and takes it.
    fn claim<W: Wait>(&self, rt: &W, own: &mut Own<M, C, R>)
        requires seat { (own.old.table_id ≡ self.now.table.shared.table_id) × (0 < own.old.me.0.parts) }
        ensures same { IsSame own.old own.new }
        ensures took { Took (Sound M.stands M.next M.number) (Ends M.stands M.next) own.old.me own.new.me }
    {
        for _ in rt.forever() {
            if self.table.shared.compare_exchange::<Claim>(own, TURN, 0, 1) == 0 {
                return;
            }
            self.rest(rt);
        }
        unreachable!()
    }

    /// Looks for a while whether the turn is free, and parks until it is given up. The count is raised
    /// before the turn word is looked at: so whoever stores 0 behind that look finds it raised, and
    /// wakes somebody.
    fn rest<W: Wait>(&self, rt: &W) {
        for _ in 0..LOOKS {
            if self.table.shared.peek(TURN) == 0 {
                return;
            }
            spin_loop();
        }
        self.waiting.fetch_add(1, SeqCst);
        self.table.shared.park(rt, TURN, 1);
        self.waiting.fetch_sub(1, SeqCst);
    }

    /// Gives the object back and the turn up, and wakes a seat where one parks.
    fn release(&self, own: &mut Own<M, C, R>)
        requires seat { (own.old.table_id ≡ self.now.table.shared.table_id) × Holds M.stands M.next own.old.me }
        ensures same { IsSame own.old own.new }
        ensures gone { own.new.me ≡ (without_turn own.old.me.0, []) }
    {
        self.table.shared.store::<Release>(own, TURN, 0);
        if self.waiting.load(SeqCst) != 0 {
            self.table.shared.wake_one(TURN);
        }
    }

    /// Joins a call that the object has made to the history, and publishes the number that it has now.
    fn publish<N: Entry<(C, R)>>(
        &self,
        own: &mut Own<M, C, R>,
        number: u64,
        call: Snapshot<C>,
        reply: &R,
    )
        requires entry { N.entry ≡ some (call.value, reply.now) }
        requires seat { own.old.table_id ≡ self.now.table.shared.table_id }
        requires turn { own.old.me.0.turn ≡ true }
        requires grows { (o : M) × (own.old.me.0.opening ≡ Some o) × ((n : ℕ) → Sound M.stands M.next M.number o own.old.me.0.base n → Sound M.stands M.next M.number o (own.old.me.0.base ++ (call.value, reply.now) ∷ []) (max n number)) }
        ensures same { IsSame own.old own.new }
        ensures now { (own.new.me ≡ (added own.old.me.0 (call.value, reply.now), own.old.me.1)) × Orderly own.new.me.0 own.new.me.0.seen }
    {
        let _ = (call, reply);
        self.table
            .shared
            .fetch_max::<Publish<N>>(own, NUMBER, number);
    }

    /// Steps the object, which is out with the seat, and tells the number that it has then. An `Err`
    /// leaves it standing for what it stood for.
    fn step_held(&self, own: &mut Own<M, C, R>, call: C) -> Result<(R, u64), AllocError>
        requires seat { (own.old.table_id ≡ self.now.table.shared.table_id) × Holds M.stands M.next own.old.me }
        ensures same { IsSame own.old own.new }
        ensures ok { IfOk result (λ r. Stepped M.stands M.next M.number own.old.me call r own.new.me) }
        ensures form { IfOk result (λ r. M.has_form call r.0) }
        ensures sure { OnErr result (M.may_fail call) }
        ensures err { OnErr result ((own.new.me.0 ≡ own.old.me.0) × Holds M.stands M.next own.new.me) }
    {
        let object = own.slot_mut(&self.table.shared, 0);
        let reply = object.step(call)?;
        Ok((reply, object.high()))
    }

    /// A call of the seat that has the turn. An `Err` joins nothing to the history.
    fn call_held(&self, own: &mut Own<M, C, R>, call: C) -> Result<R, AllocError>
        requires seat { (own.old.table_id ≡ self.now.table.shared.table_id) × Holds M.stands M.next own.old.me }
        ensures same { IsSame own.old own.new }
        ensures held { Holds M.stands M.next own.new.me }
        ensures ok { IfOk result (λ reply. Joined M.stands M.next M.number own.old.me.0 (call, reply) own.new.me.0) }
        ensures form { IfOk result (λ reply. M.has_form call reply) }
        ensures sure { OnErr result (M.may_fail call) }
        ensures err { OnErr result (own.new.me.0 ≡ own.old.me.0) }
    {
        let noted = Snapshot::of(&call);
        let (reply, number) = self.step_held(own, call)?;
        self.publish::<Brand>(own, number, noted, &reply);
        Ok(reply)
    }

    /// A call of the seat that has the turn, and then gives it up, whatever came of the call.
    fn call_and_release(&self, own: &mut Own<M, C, R>, call: C) -> Result<R, AllocError>
        requires seat { (own.old.table_id ≡ self.now.table.shared.table_id) × Holds M.stands M.next own.old.me }
        ensures same { IsSame own.old own.new }
        ensures ok { IfOk result (λ reply. Finished M.stands M.next M.number own.old.me.0 (call, reply) own.new.me) }
        ensures form { IfOk result (λ reply. M.has_form call reply) }
        ensures sure { OnErr result (M.may_fail call) }
        ensures err { OnErr result (own.new.me ≡ (without_turn own.old.me.0, [])) }
    {
        let reply = self.call_held(own, call);
        self.release(own);
        reply
    }

    /// Waits for the turn, and makes the call: its reply is the machine's at one place of a history that
    /// all seats share, which begins with what the seat had seen, and ends with this call. That is what
    /// the seat has then seen. An `Err` is want of memory: the call is in no history, and nothing that
    /// the seat knows has changed. No clause says that the turn comes.
    pub fn call<W: Wait>(
        &self,
        rt: &W,
        seat: &mut TurnSeat<M, C, R>,
        call: C,
    ) -> Result<R, AllocError>
        requires { IsSeatOf self.now seat.old }
        ensures own { IsSeatOf self.now seat.new }
        ensures ok { IfOk result (λ reply. Called M.stands M.next M.number (view seat.old) (call, reply) (view seat.new)) }
        ensures form { IfOk result (λ reply. M.has_form call reply) }
        ensures sure { OnErr result (M.may_fail call) }
        ensures err { OnErr result ((view seat.new) ≡ (view seat.old)) }
    {
        let own = &mut seat.own;
        self.claim(rt, own);
        self.call_and_release(own, call)
    }

    /// As `call`, and passes the gate of `v` once, before the call, while the seat has the turn.
    pub fn call_gated<W: Wait, G: Gate>(
        &self,
        rt: &W,
        gate: &G,
        v: u16,
        seat: &mut TurnSeat<M, C, R>,
        call: C,
    ) -> Result<R, AllocError>
        requires { IsSeatOf self.now seat.old }
        ensures own { IsSeatOf self.now seat.new }
        ensures ok { IfOk result (λ reply. Called M.stands M.next M.number (view seat.old) (call, reply) (view seat.new)) }
        ensures form { IfOk result (λ reply. M.has_form call reply) }
        ensures sure { OnErr result (M.may_fail call) }
        ensures err { OnErr result ((view seat.new) ≡ (view seat.old)) }
    {
        let own = &mut seat.own;
        self.claim(rt, own);
        gate.pass(v);
        self.call_and_release(own, call)
    }

    /// The largest number that any state of the object has shown by now. It is that of a history which
    /// begins with what the seat has seen, and no less than what the seat was told before; a rollback
    /// does not lower it. Takes no memory, and waits for nothing.
    pub fn seen_high(&self, seat: &mut TurnSeat<M, C, R>) -> u64
        requires { IsSeatOf self.now seat.old }
        ensures own { IsSeatOf self.now seat.new }
        ensures told { Published M.stands M.next M.number (view seat.old) result (view seat.new) }
    {
        self.table.shared.load::<Load>(&mut seat.own, NUMBER)
    }

    /// Cuts a seat in two.
    fn cut<N: Parts>(&self, own: &mut Own<M, C, R>, _parts: u64) -> Own<M, C, R>
        requires number { N.parts ≡ _parts }
        requires seat { own.old.table_id ≡ self.now.table.shared.table_id }
        requires parts { (0 < _parts) × (_parts < own.old.me.0.parts) }
        ensures same { IsSame own.old own.new }
        ensures kept { own.new.me ≡ (left _parts own.old.me.0, own.old.me.1) }
        ensures given { (result.table_id ≡ own.old.table_id) × (result.me ≡ (right _parts own.old.me.0, [])) }
    {
        self.table.shared.split_seat::<Cut<N>>(own)
    }

    /// A new seat, which has seen as much, has made no call, and has the parts that are named; the seat
    /// loses these parts, and keeps all else. Takes no memory, and waits for nothing.
    pub fn split_seat(&self, seat: &mut TurnSeat<M, C, R>, parts: u64) -> TurnSeat<M, C, R>
        requires seat { IsSeatOf self.now seat.old }
        requires parts { (0 < parts) × (parts < (view seat.old).parts) }
        ensures own { IsSeatOf self.now seat.new }
        ensures kept { (view seat.new) ≡ left parts (view seat.old) }
        ensures given { IsSeatOf self.now result × (view result ≡ right parts (view seat.old)) }
    {
        let own = self.cut::<Brand>(&mut seat.own, parts);
        seat.parts -= parts;
        TurnSeat { own, parts }
    }

    /// Takes in a seat: the longer of what both have seen, the calls of both, and the parts of both; with
    /// all parts these are all calls that were made. The load behind it has the table's rule told of the
    /// joined view, as the join itself tells none. Takes no memory, and waits for nothing.
    pub fn join_seat(&self, into: &mut TurnSeat<M, C, R>, gone: TurnSeat<M, C, R>)
        requires { IsSeatOf self.now into.old × IsSeatOf self.now gone }
        ensures own { IsSeatOf self.now into.new }
        ensures joined { Gathered (view into.old) (view gone) (view into.new) }
    {
        let TurnSeat { own, parts } = gone;
        self.table.shared.join_seat::<Gather>(&mut into.own, own);
        self.table.shared.load::<Load>(&mut into.own, NUMBER);
        into.parts += parts;
    }

    /// The object, which stands for the end of the history that the seat has seen and made; `None`
    /// exactly where the seat has fewer than all parts, and then turn, seat and object are gone.
    pub fn close(self, seat: TurnSeat<M, C, R>) -> Option<M>
    where
        M: Drop,
        requires { IsSeatOf self seat }
        ensures { MatchOption result ((view seat).parts < all_parts) (ClosesWith M.stands M.next (view seat)) }
    {
        if seat.parts < ALL_PARTS {
            return None;
        }
        let Turn { table, waiting: _ } = self;
        let TurnSeat { own, parts: _ } = seat;
        let mut closed = table.close_with(own);
        let object = closed.take(0);
        closed.free();
        Some(object)
    }
}

impl<M, C, R> TurnSeat<M, C, R> {
    /// How many of all 4,294,967,296 parts the seat has.
    pub fn parts(&self) -> u64
        ensures { result ≡ (view self.now).parts }
    {
        self.parts
    }
}

//! What holds of a node over every access that tells its calls, as one over seats does: each law is of
//! one call of `Node`, by that call's own clauses, as the contract of a function that does nothing.
ghost use Rattle.std.specs.Prelude.{ℕ, List};
ghost use Rattle.vb_calls.specs.declared.calls.VbCall.{VbCall};
ghost use Rattle.vb_calls.specs.declared.calls.VbReply.{VbReply};
ghost use Rattle.vb_told.specs.Laws.{ListsCalls, ListsNoMakes};
ghost use Rattle.node_threads.specs.Seats.{has_row, mine_of, seat_made, seat_step};
ghost use Rattle.node_told.specs.Laws.{AnswersAreTold, DialsAreTold, DropsAreTold, DuesAreTold, FlushesAreTold, HearingCallsNothing, MakesAreTold, OperatorsAreTold, OutcomesAreTold, PiecesAreTold, PullsAreTold, SettlesAreTold, YieldsAreTold};

use vb_calls::{Journals, VbAccess};

/// `feed`: a client's connection made its program's calls, with the replies that the lists gained, and
/// hands out what that comes to; where memory failed the first of them. No other connection calls.
pub fn pieces_are_told<A: VbAccess, J: Journals>()
    ensures { (mine : A → ℕ → List (VbCall × VbReply)) → ListsCalls A.step mine → PiecesAreTold J A.step mine }
{}

/// `hear`: a peer's bytes are cut into frames, and no vBucket is called.
pub fn hearing_calls_nothing<A: VbAccess, J: Journals>()
    ensures { (mine : A → ℕ → List (VbCall × VbReply)) → HearingCallsNothing J mine }
{}

/// `answer`: the same of a peer's frame.
pub fn answers_are_told<A: VbAccess, J: Journals>()
    ensures { (mine : A → ℕ → List (VbCall × VbReply)) → ListsCalls A.step mine → AnswersAreTold J A.step mine }
{}

/// `post`: the same of the outcome of a durable write.
pub fn outcomes_are_told<A: VbAccess, J: Journals>()
    ensures { (mine : A → ℕ → List (VbCall × VbReply)) → ListsCalls A.step mine → OutcomesAreTold J A.step mine }
{}

/// `pull`: a connection made its job's calls, with the replies that the lists gained and some readings of
/// its journals, and hands out what that comes to.
pub fn pulls_are_told<A: VbAccess, J: Journals>()
    ensures { (mine : A → ℕ → List (VbCall × VbReply)) → ListsCalls A.step mine → PullsAreTold A.step J.asks mine }
{}

/// `give_up`: the same of the vBuckets that a connection gives up, each of which is told dead.
pub fn yields_are_told<A: VbAccess, J: Journals>()
    ensures { (mine : A → ℕ → List (VbCall × VbReply)) → ListsCalls A.step mine → YieldsAreTold J A.step mine }
{}

/// `drop_cursor`: the same of the cursor of a connection's stream.
pub fn drops_are_told<A: VbAccess, J: Journals>()
    ensures { (mine : A → ℕ → List (VbCall × VbReply)) → ListsCalls A.step mine → DropsAreTold J A.step mine }
{}

/// `feed_dial`: a dial made its job's calls, with the replies that the lists gained and some answers of
/// its journals, and hands out what that comes to.
pub fn dials_are_told<A: VbAccess, J: Journals>()
    ensures { (mine : A → ℕ → List (VbCall × VbReply)) → ListsCalls A.step mine → DialsAreTold A.step J.asks mine }
{}

/// `admin`: the same of an operator's call.
pub fn operators_are_told<A: VbAccess, J: Journals>()
    ensures { (mine : A → ℕ → List (VbCall × VbReply)) → ListsCalls A.step mine → OperatorsAreTold A.step J.asks mine }
{}

/// `flush`: the same of a step of writing a vBucket down.
pub fn flushes_are_told<A: VbAccess, J: Journals>()
    ensures { (mine : A → ℕ → List (VbCall × VbReply)) → ListsCalls A.step mine → FlushesAreTold A.step J.asks mine A.has }
{}

/// `set_chain` and `tick`: the same of a call that lets a vBucket resolve durable writes.
pub fn settles_are_told<A: VbAccess, J: Journals>()
    ensures { (mine : A → ℕ → List (VbCall × VbReply)) → ListsCalls A.step mine → SettlesAreTold J A.step mine }
{}

/// `acknowledge`: the same of what a dial asks once more is written down; nothing is called where no
/// dial is.
pub fn dues_are_told<A: VbAccess, J: Journals>()
    ensures { (mine : A → ℕ → List (VbCall × VbReply)) → ListsCalls A.step mine → DuesAreTold J A.step mine }
{}

/// `make_vb`: no list gains a call, whether a vBucket was made, was there, or memory failed behind it.
pub fn makes_are_told<A: VbAccess, J: Journals>()
    ensures { (mine : A → ℕ → List (VbCall × VbReply)) → ListsNoMakes A.made mine → MakesAreTold A.made J.asks mine }
{}

/// All of these of a node over seats (`VbSeats` of node_threads), and with no premise: its lists are the
/// calls that its own seats made, each with the reply that the vBucket gave at that call's place.
pub fn nodes_over_seats_are_told<J: Journals>()
    ensures pieces { PiecesAreTold J seat_step mine_of }
    ensures hearing { HearingCallsNothing J mine_of }
    ensures answers { AnswersAreTold J seat_step mine_of }
    ensures outcomes { OutcomesAreTold J seat_step mine_of }
    ensures pulls { PullsAreTold seat_step J.asks mine_of }
    ensures yields { YieldsAreTold J seat_step mine_of }
    ensures drops { DropsAreTold J seat_step mine_of }
    ensures dials { DialsAreTold seat_step J.asks mine_of }
    ensures operators { OperatorsAreTold seat_step J.asks mine_of }
    ensures flushes { FlushesAreTold seat_step J.asks mine_of has_row }
    ensures settles { SettlesAreTold J seat_step mine_of }
    ensures dues { DuesAreTold J seat_step mine_of }
    ensures makes { MakesAreTold seat_made J.asks mine_of }
{}

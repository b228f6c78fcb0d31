//! What holds of calls over seats, each law as the contract of a function that does nothing.
ghost use Rattle.vb_calls.specs.declared.calls.VbCall.{VbCall};
ghost use Rattle.vb_calls.specs.declared.calls.VbReply.{VbReply};
ghost use Rattle.vb_told.specs.Laws.{ListsCalls, ListsNoMakes};
ghost use Rattle.node_threads.specs.Laws.{CallsAreTurns, MakesExactly, SeatsInNumbers};
ghost use Rattle.node_threads.specs.Seats.{Row, mine_of, seat_made, seat_step};

/// A call over seats enters the list of its own seat, with its reply, and no other list; one that
/// is made enters none. So what `vb_told` says of layers is said of those over seats.
pub fn seats_tell()
    ensures calls { ListsCalls seat_step mine_of }
    ensures makes { ListsNoMakes seat_made mine_of }
{}

/// A call that is answered is one turn of the seat of its vBucket: its reply is the plain vBucket's, behind
/// all calls before it, whoever made them. No other seat changes.
pub fn calls_are_turns()
    ensures { CallsAreTurns }
{}

/// A vBucket is made over seats exactly where there is no seat of its number; where there is one, nothing
/// changes.
pub fn makes_are_exact()
    ensures { MakesExactly }
{}

/// Of seats of the vBuckets 3 and 5: a call to 3 is answered, enters the list of its own seat, and does not
/// leave that as it was; to 4 nobody answers, and nothing changes.
pub fn seats_in_numbers()
    ensures { (three five : Row) (call : VbCall) (reply : VbReply) → SeatsInNumbers three five call reply }
{}

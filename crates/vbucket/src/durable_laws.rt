//! What holds of durable writes at every vBucket, each the contract of a function that does nothing.
ghost use Rattle.vbucket.specs.DurableNumbers.{DurableInNumbers};
ghost use Rattle.vbucket.specs.DurableLaws.{AcksExactly, ChainsExactly, DuesExactly, DurableMade, DurableRefused, PromotionsLeave, QuietOnes, ReceiptsCommit, RestsExactly, StaysAtRest, TicksExactly, TurnsGiveUp};

/// When a durable write is refused, in the order of the reasons: the vBucket is not active; fewer nodes
/// of its chain are set than a majority of it has; there are no two seqnos left beside one for each
/// outstanding prepare; and then the key's own reasons.
pub fn durable_refusals()
    ensures { DurableRefused }
{}

/// A durable write that is made is one prepare, which no read sees. What may be committed then is
/// committed, the lowest first: each commit has the prepare's document, and is of one that a majority
/// of the chain has, saved as its level asks. Who waits is told the branch, the commit's seqno and
/// the prepare's CAS.
pub fn durable_writes_are_prepared()
    ensures { DurableMade }
{}

/// One durable write in a chain of two, in numbers: refused, prepared, committed at each level, given up
/// at its deadline, and left to the next active node.
pub fn durable_writes_in_numbers()
    ensures { DurableInNumbers }
{}

/// A chain is set, and what was acknowledged stays; what may be committed then is.
pub fn chains_are_set()
    ensures { ChainsExactly }
{}

/// An acknowledgement above the last seqno is refused and changes nothing. Of each member the greatest
/// one counts; what may be committed then is.
pub fn acknowledgements_are_counted()
    ensures { AcksExactly }
{}

/// Exactly the prepares with a deadline that is not after the clock are given up, each with an abort of
/// its key, and who waits is answered Ambiguous once. One that a former active node left has none.
pub fn late_prepares_are_given_up()
    ensures { TicksExactly }
{}

/// A receipt lets be committed what is saved then.
pub fn receipts_commit()
    ensures { ReceiptsCommit }
{}

/// No other call, and none that is refused, tells an outcome, or a branch of changes that it made.
pub fn others_resolve_none()
    ensures { QuietOnes }
{}

/// In another role a vBucket has no outstanding prepare, no acknowledgement and no other node in its
/// chain, and who waited is answered Ambiguous once. A promotion makes each prepare that waits one that
/// is to be committed again.
pub fn roles_give_up()
    ensures turns { TurnsGiveUp }
    ensures leads { PromotionsLeave }
{}

/// A follower may acknowledge the greatest prepare that waits and that it has all up to, with each of
/// level 3 up to it saved.
pub fn due_numbers_are_told()
    ensures { DuesExactly }
{}

/// Once no more may be committed, no call leaves more: neither those that commit, nor a plain write,
/// which does not.
pub fn no_more_is_left_to_commit()
    ensures stays { StaysAtRest }
    ensures exactly { RestsExactly }
{}

//! What takeovers come to at both of their vBuckets, each law as the contract of a function that does
//! nothing.
ghost use Rattle.vbucket.specs.Takeovers.{HeirsOwn, PendsWait, YieldsKeepOne};

/// A vBucket is given up for one of its open streams exactly where it is active, and is dead then. This
/// stream goes on as it would have gone, and all others are ended, which the reply names. Who waits for
/// a durable write is answered Ambiguous once. No document, change, entry or number becomes another.
pub fn yields_keep_one()
    ensures { YieldsKeepOne }
{}

/// A vBucket that was told to take over does so at the end of a snapshot, on the branch that it is on:
/// its failover log stays. It feeds no stream, each prepare that waits is to be committed again, and what
/// may be committed then is.
pub fn heirs_own()
    ensures { HeirsOwn }
{}

/// A follower is told that it is to take over: it follows still, at the position and with the failover
/// log that it had. To be told so again seals the open span, and does nothing else.
pub fn pends_wait()
    ensures { PendsWait }
{}

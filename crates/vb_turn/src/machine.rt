//! What the turn asks of the object that is called in turns.
ghost use Rattle.std.specs.Prelude.{◌≡◌, ℕ, IfOk, OnErr};

use std::alloc::AllocError;

/// An object with one step, which answers as a plain machine does. C is its calls, and R its replies.
/// What a turn says is of the states that the object stood for when its turn was made: of one that
/// stands for none it says nothing.
pub trait Machine<C, R> {
    /// The states of the plain machine.
    ghost Plain: { Type 0 };

    /// The object stands for a state.
    ghost stands: { Self → Plain → Type 0 };

    /// The state behind a call, and its reply.
    ghost next: { Plain → C → Plain × R };

    /// The number that a state shows, as the last seqno of a vBucket.
    ghost number: { Plain → ℕ };

    /// A call may have this reply.
    ghost has_form: { C → R → Type 0 };

    /// A call may end for want of memory.
    ghost may_fail: { C → Type 0 };

    /// Makes a call: for each state that the object stood for, it stands for the machine's next one,
    /// and replies as the machine does. An `Err` changes no state that it stands for, and comes of a
    /// call alone that may fail.
    fn step(&mut self, call: C) -> Result<R, AllocError>
        ensures ok { IfOk result (λ reply. (s : Plain) → stands self.old s → stands self.new (next s call).0 × (reply ≡ (next s call).1)) }
        ensures form { IfOk result (λ reply. has_form call reply) }
        ensures sure { OnErr result (may_fail call) }
        ensures err { OnErr result ((s : Plain) → stands self.old s → stands self.new s) };

    /// The number that the object's state shows. Takes no memory.
    fn high(&self) -> u64
        ensures { (s : Plain) → stands self.now s → result ≡ number s };
}

//! What the layers above ask of vBuckets.
ghost use Rattle.std.specs.Prelude.{◌≡◌, ◌<◌, ◌==◌, ◌&&◌, ◌||◌, not, ℕ, Bool, Option, is_some, IfOk, OnErr};
ghost use Rattle.{vb_calls.specs.Forms.{TakesMemory}, vb_calls.specs.Programs.{IsReply}, vb_calls.specs.declared.calls.VbCall.{VbCall as TheCall}};
ghost use Rattle.{vb_calls.specs.declared.calls.VbReply.{VbReply as TheReply}, vb_types.specs.declared.role.Role.{Role as TheRole}, vb_types.specs.declared.role.Role.TheVariants.{Active}};

use crate::calls::{VbCall, VbReply};
use std::alloc::AllocError;
use vb_types::Role;

/// vBuckets by their numbers.
pub trait VbAccess {
    /// Whether there is a vBucket of a number.
    ghost has: { Self → ℕ → Bool };

    /// Asks that of the access itself, and calls no vBucket.
    fn is_there(&self, v: u16) -> bool
        ensures { result ≡ has self.now v };

    /// What is known of one call: the access before, the vBucket's number, the call, its reply
    /// where there is such a vBucket, and the access after.
    ghost step: { Self → ℕ → TheCall → Option TheReply → Self → Type 0 };

    /// Makes a call to the vBucket `v`; `None` exactly where there is none of that number. A call
    /// makes none and takes none away. An `Err` changes nothing, and comes of no call that takes no
    /// memory.
    fn call(&mut self, v: u16, call: VbCall) -> Result<Option<VbReply>, AllocError>
        ensures ok { IfOk result (λ reply. step self.old v call reply self.new) }
        ensures form { IfOk result (λ reply. IsReply call reply) }
        ensures there { IfOk result (λ reply. is_some reply ≡ has self.old v) }
        ensures keeps { (w : ℕ) → has self.new w ≡ has self.old w }
        ensures sure { OnErr result (TakesMemory call) }
        ensures err { OnErr result (self.new ≡ self.old) };

    /// What is known where a vBucket is made: the access before, the vBucket's number, its node, its
    /// role, the branch that it is on if it is active, whether it was made, and the access after.
    ghost made: { Self → ℕ → ℕ → TheRole → ℕ → Bool → Self → Type 0 };

    /// Makes the vBucket `v` of a node, with nothing in it; false exactly where there is one of that
    /// number. An `Err` changes nothing.
    fn make(&mut self, v: u16, node: u8, role: Role, uuid: u64) -> Result<bool, AllocError>
        requires { role ≡ Active → 0 < uuid }
        ensures ok { IfOk result (λ fresh. made self.old v node role uuid fresh self.new) }
        ensures free { IfOk result (λ fresh. fresh ≡ not (has self.old v)) }
        ensures more { IfOk result (λ fresh. (w : ℕ) → has self.new w ≡ ((fresh && w == v) || has self.old w)) }
        ensures err { OnErr result (self.new ≡ self.old) };
}

//! A prepare that waits at the active node.
ghost use Rattle.std.specs.Prelude.{◌≡◌, IfOk};

use std::alloc::AllocError;
use vb_types::{Key, Level};

/// An outstanding prepare.
#[derive(Drop)]
pub struct Waiting {
    /// The key that it writes.
    pub key: Key,
    /// The prepare's seqno.
    pub seq: u64,
    /// Where it must be before it is committed.
    pub level: Level,
    /// When it is given up: a time of the node's clock. A prepare that is to be committed again, as a
    /// former active node left it, has none.
    pub deadline: Option<u64>,
    /// Who waits for the outcome, or 0.
    pub waiter: u64,
}

// By hand, so that only what takes memory is a call that may fail.
impl Clone for Waiting {
    ghost is_clone = { λ waiting copy. copy ≡ waiting };

    fn clone(&self) -> Result<Waiting, AllocError> {
        let key = self.key.clone()?;
        Ok(Waiting { key, ..*self })
    }
}

impl Waiting {
    /// The same prepare once more.
    pub fn copy(&self) -> Result<Waiting, AllocError>
        ensures { IfOk result (λ copy. copy ≡ self.now) }
    {
        self.clone()
    }
}

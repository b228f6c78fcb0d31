//! Memory for one write.
ghost use Rattle.std.specs.Prelude.{◌≡◌, ◌≤◌, length, IfOk};
ghost use Rattle.vb_disk.specs.Disks.{is_write};

use std::alloc::{AllocError, Global};
use std::marker::Model;

/// Memory for the copy of one write of that length, at that place.
#[derive(Drop)]
pub struct Room {
    at: u64,
    len: u64,
    copy: Vec<u8>,
}

impl Model for Room {
    ghost use Rattle.std.specs.Prelude.{◌≡◌, ◌≤◌, ℕ, [], vec_capacity};

    ghost Value = { ℕ × ℕ };

    ghost view = { λ r. (r.at, r.len) };

    ghost invariant = { λ r. (r.copy.items ≡ []) × (r.len ≤ vec_capacity r.copy) };
}

impl Room {
    /// An error is want of memory.
    pub fn new(alloc: Global, at: u64, len: u64) -> Result<Room, AllocError>
        ensures { IfOk result (λ room. room ≡ (at, len)) }
    {
        let copy = Vec::with_capacity(alloc, len as usize)?;
        Ok(Room { at, len, copy })
    }

    /// Whether it is for this write.
    pub fn is(&self, at: u64, len: u64) -> bool
        ensures { result ≡ is_write at len self.now }
    {
        self.at == at && self.len == len
    }

    /// The copy of these bytes.
    pub fn copy(self, bytes: &[u8]) -> Vec<u8>
        requires { length bytes.now ≤ self.1 }
        ensures { result.items ≡ bytes.now }
    {
        let mut copy = self.copy;
        let copied: Result<_, _> = copy.extend_from_slice(bytes);
        copied.unwrap();
        copy
    }
}

//! What a client asks to be written.
ghost use Rattle.std.specs.Prelude.{◌≡◌};

use crate::key::{Key, Value};
use std::alloc::AllocError;

/// How a write treats the document that is there.
#[derive(Clone, Copy, Debug, PartialEq, Eq)]
pub enum Op {
    /// Puts the document, whether or not there is one.
    Set,
    /// Puts it only where there is none.
    Add,
    /// Puts it only where there is one.
    Replace,
    /// Takes it away; there must be one.
    Delete,
}

/// A client's write. A CAS of 0 asks for none; any other must be the document's.
#[derive(Drop)]
pub struct Write {
    pub op: Op,
    pub key: Key,
    pub value: Value,
    pub flags: u32,
    pub expiry: u32,
    pub datatype: u8,
    pub cas: u64,
}

// By hand, so that only what takes memory is a call that may fail.
impl Clone for Write {
    ghost is_clone = { λ write copy. copy ≡ write };

    fn clone(&self) -> Result<Write, AllocError> {
        let key = self.key.clone()?;
        let value = self.value.clone()?;
        Ok(Write {
            key,
            value,
            ..*self
        })
    }
}

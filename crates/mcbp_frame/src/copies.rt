//! Copies of bytes, each in memory of its own or cut out of a block.
ghost use Rattle.std.specs.Prelude.{◌≡◌, [], IfOk, OnOk};

use bytes::{Bytes, BytesMut};
use std::alloc::{AllocError, Global};

/// Copies of fewer bytes than this are cut out of a block. A copy that is kept keeps its block.
pub const CUT: usize = 256;

/// How much room a block has.
const ROOM: usize = 1024;

/// Makes copies: short ones are cut out of one block, one behind another, so that most take no
/// memory of their own. Once the block is full it is used again, where its copies are gone.
#[derive(Drop)]
pub struct Copies {
    alloc: Global,
    block: BytesMut,
    /// Copies of fewer bytes than this are cut.
    cut: usize,
}

impl Copies {
    /// Gives each copy memory of its own.
    pub fn own(alloc: Global) -> Copies {
        let block = BytesMut::new(alloc);
        Copies {
            alloc,
            block,
            cut: 0,
        }
    }

    /// Cuts short copies out of a block.
    pub fn cutting(alloc: Global) -> Copies {
        let block = BytesMut::new(alloc);
        Copies {
            alloc,
            block,
            cut: CUT,
        }
    }

    /// Makes room for a short copy, if there is none.
    fn make_room(&mut self) -> Result<(), AllocError>
        ensures { OnOk result (self.new.block.items ≡ []) }
    {
        self.block.clear();
        if self.block.capacity() < CUT {
            self.block.reserve(ROOM)?;
        }
        Ok(())
    }

    /// A copy of bytes.
    pub fn copy(&mut self, bytes: &[u8]) -> Result<Bytes, AllocError>
        ensures { IfOk result (λ copy. copy ≡ bytes.now) }
    {
        if bytes.len() >= self.cut {
            return Bytes::copy_from_slice(self.alloc, bytes);
        }
        self.make_room()?;
        self.block.extend_from_slice(bytes)?;
        self.block.freeze_to(bytes.len())
    }
}

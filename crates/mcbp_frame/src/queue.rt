//! Bytes on their way from one end of a connection to the other.
ghost use Rattle.std.specs.Prelude.{◌≡◌, ◌++◌, ◌≤◌, [], length, take, drop, OnOk, OnErr};

use bytes::BytesMut;
use std::alloc::{AllocError, Global};

/// Bytes that were written and are not delivered yet, the first written first.
#[derive(Drop)]
pub struct ByteQueue {
    bytes: BytesMut,
}

impl std::marker::Model for ByteQueue {
    ghost use Rattle.std.specs.Prelude.{ℕ, List};

    ghost Value = { List ℕ };

    ghost view = { λ q. q.bytes.items };
}

impl ByteQueue {
    /// The empty queue.
    pub fn new(alloc: Global) -> ByteQueue
        ensures { result ≡ [] }
    {
        let bytes = BytesMut::new(alloc);
        ByteQueue { bytes }
    }

    /// How many bytes there are.
    pub fn len(&self) -> usize
        ensures { result ≡ length self.now }
    {
        self.bytes.len()
    }

    /// The first `n` bytes.
    pub fn front(&self, n: usize) -> &[u8]
        requires { n ≤ length self.now }
        ensures { result.now ≡ take n self.now }
    {
        &self.bytes.as_slice()[..n]
    }

    /// Takes away the first `n` bytes.
    pub fn advance(&mut self, n: usize)
        requires { n ≤ length self.old }
        ensures { self.new ≡ drop n self.old }
    {
        self.bytes.advance(n);
    }

    /// Puts bytes at the end. An `Err` puts nothing.
    pub fn push(&mut self, bytes: &[u8]) -> Result<(), AllocError>
        ensures ok { OnOk result (self.new ≡ self.old ++ bytes.now) }
        ensures err { OnErr result (self.new ≡ self.old) }
    {
        self.bytes.extend_from_slice(bytes)
    }
}

//! Frames out of a stream that comes in pieces.
ghost use Rattle.std.specs.Prelude.{◌≡◌, ◌++◌, [], IfOk, OnOk, OnErr};
ghost use Rattle.{mcbp_frame.specs.Cutting.{fault_in, front_fault, frames_in, left_of}, mcbp_frame.specs.Frames.{first_frame, rest_after, faulty_head}};

use crate::copies::Copies;
use crate::frame::{self, FaultyHead, Frame, FrameFault, HEADER_LEN};
use byteorder::{BigEndian, ByteOrder};
use bytes::BytesMut;
use std::alloc::{AllocError, Global};

/// The bytes of a stream that have come and were not given as frames. Clauses see it as these bytes.
#[derive(Drop)]
pub struct FrameReader {
    alloc: Global,
    held: BytesMut,
    /// What the bodies of single frames are copied by.
    copies: Copies,
}

impl std::marker::Model for FrameReader {
    ghost use Rattle.std.specs.Prelude.{ℕ, List};

    ghost Value = { List ℕ };

    ghost view = { λ r. r.held.items };
}

impl FrameReader {
    /// A reader at the start of a stream.
    pub fn new(alloc: Global) -> Result<FrameReader, AllocError>
        ensures { IfOk result (λ reader. reader ≡ []) }
    {
        let held = BytesMut::with_capacity(alloc, HEADER_LEN)?;
        Ok(FrameReader {
            alloc,
            held,
            copies: Copies::cutting(alloc),
        })
    }

    /// Takes the next piece of the stream.
    pub fn feed(&mut self, piece: &[u8]) -> Result<(), AllocError>
        ensures ok { OnOk result (self.new ≡ self.old ++ piece.now) }
        ensures err { OnErr result (self.new ≡ self.old) }
    {
        self.held.extend_from_slice(piece)
    }

    /// Gives the next frame, `None` until it has come whole, or the fault that stands in its place,
    /// which every later call gives too.
    pub fn next(&mut self) -> Result<Option<Result<Frame, FrameFault>>, AllocError>
        ensures first { IfOk result (λ first. first ≡ first_frame self.old) }
        ensures rest { IfOk result (λ first. self.new ≡ rest_after first self.old) }
        ensures err { OnErr result (self.new ≡ self.old) }
    {
        let first = frame::first(&mut self.copies, self.held.as_slice())?;
        if let Some(Ok(frame)) = &first {
            let len = frame::len_of(frame);
            self.held.advance(len);
        }
        Ok(first)
    }

    /// Gives all frames that have come whole. Less than a frame is left, or what begins with a
    /// fault.
    #[tactic(auto, unfolding(crate::specs::Cutting::left_of))]
    pub fn frames(&mut self) -> Result<Vec<Frame>, AllocError>
        ensures frames { IfOk result (λ frames. frames.items ≡ frames_in self.old) }
        ensures left { IfOk result (λ frames. self.new ≡ left_of self.old) }
        ensures err { OnErr result (self.new ≡ self.old) }
    {
        let (frames, len) = frame::cut(self.alloc, self.held.as_slice())?;
        self.held.advance(len);
        Ok(frames)
    }

    /// The fault that stands in place of the next frame, whatever comes.
    pub fn fault(&self) -> Result<Option<FrameFault>, AllocError>
        ensures { IfOk result (λ fault. fault ≡ front_fault self.now) }
    {
        let first = frame::first(&mut Copies::own(self.alloc), self.held.as_slice())?;
        Ok(fault_of(&first))
    }

    /// What names the frame that begins with this fault; none where its first byte is not known.
    #[tactic(auto, using(crate::proofs::Faults::headed))]
    pub fn faulty_head(&self, fault: FrameFault) -> Option<FaultyHead>
        requires { front_fault self.now ≡ Some fault }
        ensures { result ≡ faulty_head fault self.now }
    {
        let bytes = self.held.as_slice();
        match fault {
            FrameFault::BadMagic => None,
            _ => Some(FaultyHead {
                opcode: bytes[1],
                opaque: BigEndian::read_u32(&bytes[12..16]),
            }),
        }
    }

    /// Forgets all bytes.
    pub fn clear(&mut self)
        ensures { self.new ≡ [] }
    {
        self.held.clear();
    }
}

/// The fault that bytes begin with, if they begin with one.
fn fault_of(first: &Option<Result<Frame, FrameFault>>) -> Option<FrameFault>
    ensures { result ≡ fault_in first.now }
{
    match first {
        Some(Err(fault)) => Some(*fault),
        _ => None,
    }
}

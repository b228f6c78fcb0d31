//! A frame of bytes.
use mcbp_frame::{Frame, FrameReader};
use std::alloc::Global;
use std::test::Fail;

/// The frame that bytes begin with.
pub fn frame_of(alloc: Global, bytes: &[u8]) -> Result<Frame, Fail> {
    let mut reader = FrameReader::new(alloc)?;
    reader.feed(bytes)?;
    match reader.next()? {
        Some(Ok(frame)) => Ok(frame),
        _ => Err("no frame".into()),
    }
}

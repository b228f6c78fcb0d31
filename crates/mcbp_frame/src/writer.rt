//! Frames as bytes.
ghost use Rattle.std.specs.Prelude.{◌≡◌, ◌++◌, OnOk, OnErr};
ghost use Rattle.{mcbp_frame.specs.Frames.{body_size}, mcbp_frame.specs.Spelling.{lengths, header_spelling, spelling, Fits}};

use crate::frame::{FRAMED_REQUEST, Frame, HEADER_LEN};
use bytes::BytesMut;
use std::alloc::AllocError;

/// Bytes 2 and 3 of a header.
fn lengths_of(f: &Frame) -> [u8; 2]
    requires { Fits f.now }
    ensures { result ≡ lengths f.now }
{
    if f.magic == FRAMED_REQUEST {
        [f.framing.len() as u8, f.key.len() as u8]
    } else {
        (f.key.len() as u16).to_be_bytes()
    }
}

/// The header of a frame with a body of this length.
fn header_of(f: &Frame, body: usize) -> [u8; HEADER_LEN]
    requires fits { Fits f.now }
    requires body { body ≡ body_size f.now }
    ensures { result ≡ header_spelling f.now }
{
    let [l0, l1] = lengths_of(f);
    let [v0, v1] = f.vb_or_status.to_be_bytes();
    let [b0, b1, b2, b3] = (body as u32).to_be_bytes();
    let [o0, o1, o2, o3] = f.opaque.to_be_bytes();
    let [c0, c1, c2, c3, c4, c5, c6, c7] = f.cas.to_be_bytes();
    let extras = f.extras.len() as u8;
    [
        f.magic, f.opcode, l0, l1, extras, f.datatype, v0, v1, b0, b1, b2, b3, o0, o1, o2, o3, c0,
        c1, c2, c3, c4, c5, c6, c7,
    ]
}

/// Appends a frame. An `Err` appends nothing.
#[tactic(auto, unfolding(crate::specs::Spelling::spelling))]
pub fn write_frame(f: &Frame, out: &mut BytesMut) -> Result<(), AllocError>
    requires { Fits f.now }
    ensures ok { OnOk result (out.new.items ≡ out.old.items ++ spelling f.now) }
    ensures err { OnErr result (out.new.items ≡ out.old.items) }
{
    let body = f.framing.len() + f.extras.len() + f.key.len() + f.value.len();
    out.reserve(HEADER_LEN + body)?;
    out.extend_reserved(&header_of(f, body));
    out.extend_reserved(f.framing.as_slice());
    out.extend_reserved(f.extras.as_slice());
    out.extend_reserved(f.key.as_slice());
    out.extend_reserved(f.value.as_slice());
    Ok(())
}

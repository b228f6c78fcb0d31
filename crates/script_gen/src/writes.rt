//! The writes of a generated script.
ghost use Rattle.std.specs.Prelude.{◌≡◌, ◌≤◌, length, decimal, IfOk};
ghost use Rattle.mcbp_frame.specs.Spelling.{Fits, spelling};
ghost use Rattle.script_gen.specs.Writes.{stepped, is_removal, key_of_word, write_request, write_verb};

use bytes::{Bytes, BytesMut};
use mcbp_frame::{Frame, REQUEST, write_frame};
use mcbp_kv::{DELETE, SET};
use script_text::{ClientVerb, Verb};
use std::alloc::{AllocError, Global};

/// The word behind a word.
pub fn stepped(word: u64) -> u64
    ensures { result ≡ stepped word }
{
    word.wrapping_mul(6_364_136_223_846_793_005)
        .wrapping_add(1_442_695_040_888_963_407)
}

/// Whether a word's write takes a document away.
fn is_removal(word: u64) -> bool
    ensures { result ≡ is_removal word }
{
    (word >> 33) % 8 == 0
}

/// The key of a word's write.
#[tactic(auto, using(crate::proofs::Numbers::short_key))]
fn key_of(alloc: Global, word: u64) -> Result<Bytes, AllocError>
    ensures key { IfOk result (λ key. key ≡ key_of_word word) }
    ensures short { length (key_of_word word) ≤ 4 }
{
    let number = (word >> 40) % 1000;
    let key = format!(in alloc; "k{number}")?;
    Bytes::copy_from_slice(alloc, key.as_bytes())
}

/// The value that write i stores.
#[tactic(auto, using(crate::proofs::Numbers::short_value))]
fn value_of(alloc: Global, i: u32) -> Result<Bytes, AllocError>
    ensures value { IfOk result (λ value. value ≡ decimal i) }
    ensures short { length (decimal i) ≤ 10 }
{
    let value = format!(in alloc; "{i}")?;
    Bytes::copy_from_slice(alloc, value.as_bytes())
}

/// The request of write i, of this word.
fn request(alloc: Global, i: u32, word: u64) -> Result<Frame, AllocError>
    ensures frame { IfOk result (λ frame. frame ≡ write_request i word) }
    ensures fits { IfOk result Fits }
{
    let removes = is_removal(word);
    let key = key_of(alloc, word)?;
    let (extras, value) = if removes {
        (Bytes::new(), Bytes::new())
    } else {
        (Bytes::copy_from_slice(alloc, &[0; 8])?, value_of(alloc, i)?)
    };
    Ok(Frame {
        magic: REQUEST,
        opcode: if removes { DELETE } else { SET },
        datatype: 0,
        vb_or_status: 0,
        opaque: i,
        cas: 0,
        framing: Bytes::new(),
        extras,
        key,
        value,
    })
}

/// The bytes of a frame, which is let go.
fn spelled(alloc: Global, frame: Frame) -> Result<Bytes, AllocError>
    requires { Fits frame }
    ensures { IfOk result (λ bytes. bytes ≡ spelling frame) }
{
    let mut out = BytesMut::new(alloc);
    let written = write_frame(&frame, &mut out);
    drop(frame);
    written?;
    Ok(out.freeze()?)
}

/// The verb of write i, of this word.
#[tactic(auto, unfolding(crate::specs::Writes::write_verb))]
pub fn write(alloc: Global, i: u32, word: u64) -> Result<Verb, AllocError>
    ensures { IfOk result (λ verb. verb ≡ write_verb i word) }
{
    let frame = request(alloc, i, word)?;
    let bytes = spelled(alloc, frame)?;
    Ok(Verb::AtClient {
        node: 0,
        client: 1,
        what: ClientVerb::Bytes { bytes },
    })
}

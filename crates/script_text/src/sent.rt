//! Reads a line's words. A line with which a client sends bytes, and one of three words, is read with
//! no list of them.
ghost use Rattle.std.specs.Prelude.{◌≡◌, ◌==◌, ◌∷◌, [], IfOk, IfSome, MatchOption, is_some, position};
ghost use Rattle.{hex.specs.Hex.{decode_of}, script_text.specs.Grammar.{bytes_line, hex_bytes_of, verb_of}, script_text.specs.Lines.{words_of}, script_text.specs.Sent.{AreHex}};

use crate::digits::{are_digits, decode_into};
use crate::line::{bytes_verb, says, verb, words};
use crate::numbers::{connection, node};
use crate::verb::Verb;
use bytes::{Bytes, BytesMut};
use std::alloc::{AllocError, Global};

/// Digits share their bytes' block with those of other lines up to this many of them.
const SHORT: usize = 4096;

/// So many bytes a block has that lines share.
const BLOCK: usize = 16_384;

/// The words behind `bytes`.
#[derive(Clone, Copy)]
struct Sent<'a> {
    node: &'a [u8],
    client: &'a [u8],
    digits: &'a [u8],
}

/// The words of a line of three.
#[derive(Clone, Copy)]
struct Three<'a> {
    first: &'a [u8],
    second: &'a [u8],
    third: &'a [u8],
}

/// Where the first space stands.
fn space(text: &[u8]) -> Option<usize>
    ensures { result ≡ position (λ b. b == 32) text.now }
{
    text.iter().position(|b| *b == b' ')
}

/// The first word and what follows its space, if there is a space.
fn first_word(text: &[u8]) -> Option<(&[u8], &[u8])>
    ensures { MatchOption result (words_of text.now ≡ text.now ∷ []) (λ cut. words_of text.now ≡ cut.0.now ∷ words_of cut.1.now) }
{
    match space(text) {
        Some(end) => Some((&text[..end], &text[end + 1..])),
        None => None,
    }
}

/// The words behind `bytes`, if a line begins with it and has as many words.
#[tactic(auto, using(crate::proofs::Sending::bytes_said))]
fn sent_words(text: &[u8]) -> Option<Sent<'_>>
    ensures { IfSome result (λ sent. verb_of (words_of text.now) ≡ bytes_line sent.node.now sent.client.now (hex_bytes_of sent.digits.now)) }
{
    let (word, more) = first_word(text)?;
    if !says(word, b"bytes") {
        return None;
    }
    let (node, more) = first_word(more)?;
    let (client, digits) = first_word(more)?;
    Some(Sent {
        node,
        client,
        digits,
    })
}

/// Whether a text of hexadecimal digits says bytes.
#[tactic(auto, unfolding(crate::specs::Grammar::hex_bytes_of), using(crate::proofs::Sending::digits_said))]
fn says_bytes(text: &[u8]) -> bool
    ensures { result ≡ is_some (hex_bytes_of text.now) }
{
    if text.is_empty() {
        return false;
    }
    text.len() % 2 == 0 && are_digits(text)
}

/// The bytes that digits say, in a block of their own.
fn bytes_alone(alloc: Global, digits: &[u8]) -> Result<Bytes, AllocError>
    requires { AreHex digits.now }
    ensures { IfOk result (λ bytes. decode_of digits.now ≡ Ok bytes) }
{
    let mut bytes = BytesMut::zeroed(alloc, digits.len() / 2)?;
    decode_into(digits, bytes.as_mut_slice());
    Ok(bytes.freeze()?)
}

/// The bytes that digits say, as a part of the room.
fn bytes_in(room: &mut BytesMut, digits: &[u8]) -> Result<Bytes, AllocError>
    requires { AreHex digits.now }
    ensures { IfOk result (λ bytes. decode_of digits.now ≡ Ok bytes) }
{
    let len = digits.len() / 2;
    room.clear();
    if room.capacity() < len {
        room.reserve(len.max(BLOCK))?;
    }
    room.advance_mut(len);
    decode_into(digits, room.as_mut_slice());
    room.freeze_to(len)
}

/// The bytes that a text of hexadecimal digits says, if it says any. A few of them are a part of the room,
/// which those of many lines share.
#[tactic(auto, using(crate::proofs::Sending::digits_are, crate::proofs::Sending::bytes_are))]
fn sent_bytes(alloc: Global, room: &mut BytesMut, text: &[u8]) -> Result<Option<Bytes>, AllocError>
    ensures { IfOk result (λ bytes. bytes ≡ hex_bytes_of text.now) }
{
    if !says_bytes(text) {
        return Ok(None);
    }
    if text.len() > SHORT {
        return Ok(Some(bytes_alone(alloc, text)?));
    }
    Ok(Some(bytes_in(room, text)?))
}

/// The words of a line, if there are three.
fn three_words(text: &[u8]) -> Option<Three<'_>>
    ensures { IfSome result (λ three. words_of text.now ≡ three.first.now ∷ three.second.now ∷ three.third.now ∷ []) }
{
    let (first, more) = first_word(text)?;
    let (second, third) = first_word(more)?;
    match first_word(third) {
        Some(_) => None,
        None => Some(Three {
            first,
            second,
            third,
        }),
    }
}

/// What the words of a line say that sends no bytes.
#[tactic(auto, using(crate::proofs::Lines::words_read))]
fn plain_verb(alloc: Global, text: &[u8]) -> Result<Option<Verb>, AllocError>
    ensures { IfOk result (λ verb. verb ≡ verb_of (words_of text.now)) }
{
    match three_words(text) {
        Some(three) => verb(alloc, &[three.first, three.second, three.third]),
        None => verb(alloc, &words(alloc, text)?),
    }
}

/// What the words of a line say. The bytes that it sends may take a part of the room.
pub fn verb_in(alloc: Global, room: &mut BytesMut, text: &[u8]) -> Result<Option<Verb>, AllocError>
    ensures { IfOk result (λ verb. verb ≡ verb_of (words_of text.now)) }
{
    match sent_words(text) {
        Some(sent) => Ok(bytes_verb(
            sent.node,
            sent.client,
            sent_bytes(alloc, room, sent.digits)?,
        )),
        None => plain_verb(alloc, text),
    }
}

/// Whether the words of a line say a verb. No bytes are put together for it.
#[tactic(auto, using(crate::proofs::Sending::some_sent))]
pub fn says_verb(alloc: Global, text: &[u8]) -> Result<bool, AllocError>
    ensures { IfOk result (λ says. says ≡ is_some (verb_of (words_of text.now))) }
{
    match sent_words(text) {
        Some(sent) => Ok(
            node(sent.node).is_some()
                && connection(sent.client).is_some()
                && says_bytes(sent.digits),
        ),
        None => Ok(plain_verb(alloc, text)?.is_some()),
    }
}

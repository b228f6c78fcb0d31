//! Reads a script line.
ghost use Rattle.std.specs.Prelude.{◌≡◌, ◌==◌, map, take, IfOk};
ghost use Rattle.script_text.specs.Grammar.{hex_bytes_of, link_alone, two_words, three_words, clock_line, client_line, hang_line, up_line, down_line, pump_line, fail_line, crash_line, stop_line, verb_of_vb, vbucket_words, kept_of, filled_of, start_line, branches_of, member_of, members_of, others_of, chain_line, chain_words, bytes_line, pull_line, four_words, plain_of_four, vbucket_of_four, five_words, vb_line, link_mode, terms_in, linked, counted_verb, verb_of};
ghost use Rattle.{std.specs.Str.{bytes_eq}, script_text.specs.Lines.{words_of}};
ghost use Rattle.script_text.specs.Numbers.{numbers_of};

use crate::numbers::{buffer, byte, connection, frames, moved, node, number, vbucket};
use crate::verb::{ClientVerb, LinkVerb, NodeVerb, VbVerb, Verb};
use bytes::Bytes;
use std::alloc::{AllocError, Global};
use vb_disk::Outcome;
use vb_types::Listed;

/// How many words are read of a line: one more than a line has that says something.
pub const WORDS_READ: usize = 67;

/// A node starts with at most this many branches.
const BRANCHES: usize = 64;

/// A chain has at most this many members beside the vBucket's own node.
const OTHERS: usize = 3;

/// The first words of a line.
pub fn words(alloc: Global, line: &[u8]) -> Result<Vec<&[u8]>, AllocError>
    ensures { IfOk result (λ words. map (λ word. word.now) words.items ≡ take WORDS_READ (words_of line.now)) }
{
    line.split(|b| *b == b' ').take(WORDS_READ).collect(alloc)
}

/// The bytes that a text of hexadecimal digits says, if it says any.
#[tactic(auto, unfolding(crate::specs::Grammar::hex_bytes_of))]
pub fn hex_bytes(alloc: Global, text: &[u8]) -> Result<Option<Bytes>, AllocError>
    ensures { IfOk result (λ bytes. bytes ≡ hex_bytes_of text.now) }
{
    if text.is_empty() {
        return Ok(None);
    }
    match hex::decode(alloc, text) {
        Ok(bytes) => Ok(Some(Bytes::from_vec(bytes)?)),
        Err(hex::FromHexError::OutOfMemory) => Err(AllocError),
        Err(_) => Ok(None),
    }
}

/// Whether a word is this one.
pub fn says(word: &[u8], name: &[u8]) -> bool
    ensures { result ≡ bytes_eq word.now name.now }
{
    word == name
}

/// What a line says that names a link and nothing more.
fn link_alone(l: &[u8], what: LinkVerb) -> Option<Verb>
    ensures { result ≡ link_alone what l.now }
{
    let link = connection(l)?;
    Some(Verb::AtLink { link, what })
}

/// What a line of two words says.
fn verb_of_two(word: &[u8], a: &[u8]) -> Option<Verb>
    ensures { result ≡ two_words word.now a.now }
{
    if says(word, b"node") {
        Some(Verb::Node { node: node(a)? })
    } else if says(word, b"cut") {
        link_alone(a, LinkVerb::Cut)
    } else if says(word, b"drop") {
        link_alone(a, LinkVerb::Drop)
    } else {
        None
    }
}

fn clock_verb(n: &[u8], t: &[u8]) -> Option<Verb>
    ensures { result ≡ clock_line n.now t.now }
{
    let (node, nanos) = (node(n)?, number(t)?);
    let what = NodeVerb::Clock { nanos };
    Some(Verb::AtNode { node, what })
}

fn client_verb(n: &[u8], c: &[u8]) -> Option<Verb>
    ensures { result ≡ client_line n.now c.now }
{
    let (node, client) = (node(n)?, connection(c)?);
    let what = ClientVerb::Open;
    Some(Verb::AtClient { node, client, what })
}

fn hang_verb(n: &[u8], c: &[u8]) -> Option<Verb>
    ensures { result ≡ hang_line n.now c.now }
{
    let (node, client) = (node(n)?, connection(c)?);
    let what = ClientVerb::Hang;
    Some(Verb::AtClient { node, client, what })
}

fn up_verb(l: &[u8], b: &[u8]) -> Option<Verb>
    ensures { result ≡ up_line l.now b.now }
{
    let (link, bytes) = (connection(l)?, moved(b)?);
    let what = LinkVerb::Up { bytes };
    Some(Verb::AtLink { link, what })
}

fn down_verb(l: &[u8], b: &[u8]) -> Option<Verb>
    ensures { result ≡ down_line l.now b.now }
{
    let (link, bytes) = (connection(l)?, moved(b)?);
    let what = LinkVerb::Down { bytes };
    Some(Verb::AtLink { link, what })
}

fn pump_verb(l: &[u8], k: &[u8]) -> Option<Verb>
    ensures { result ≡ pump_line l.now k.now }
{
    let (link, frames) = (connection(l)?, frames(k)?);
    let what = LinkVerb::Pump { frames };
    Some(Verb::AtLink { link, what })
}

fn fail_verb(n: &[u8], k: &[u8]) -> Option<Verb>
    ensures { result ≡ fail_line n.now k.now }
{
    let (node, call) = (node(n)?, moved(k)?);
    let what = NodeVerb::Fail { call };
    Some(Verb::AtNode { node, what })
}

fn crash_verb(n: &[u8], out: Option<Outcome>) -> Option<Verb>
    ensures { result ≡ crash_line n.now out }
{
    let (node, out) = (node(n)?, out?);
    let what = NodeVerb::Crash { out };
    Some(Verb::AtNode { node, what })
}

fn stop_verb(n: &[u8], k: &[u8], out: Option<Outcome>) -> Option<Verb>
    ensures { result ≡ stop_line n.now k.now out }
{
    let (node, call, out) = (node(n)?, moved(k)?, out?);
    let what = NodeVerb::Stop { call, out };
    Some(Verb::AtNode { node, what })
}

/// What a line of three words says.
fn verb_of_three(word: &[u8], a: &[u8], b: &[u8]) -> Option<Verb>
    ensures { result ≡ three_words word.now a.now b.now }
{
    if says(word, b"clock") {
        clock_verb(a, b)
    } else if says(word, b"client") {
        client_verb(a, b)
    } else if says(word, b"hang") {
        hang_verb(a, b)
    } else if says(word, b"up") {
        up_verb(a, b)
    } else if says(word, b"down") {
        down_verb(a, b)
    } else if says(word, b"pump") {
        pump_verb(a, b)
    } else if says(word, b"fail") {
        fail_verb(a, b)
    } else if says(word, b"crash") {
        crash_verb(a, kept(b))
    } else {
        vbucket_verb(word, a, b)
    }
}

/// What a line of three words asks of a vBucket, by the first.
fn verb_of_vb(word: &[u8]) -> Option<VbVerb>
    ensures { result ≡ verb_of_vb word.now }
{
    if says(word, b"show") {
        Some(VbVerb::Show)
    } else if says(word, b"follow") {
        Some(VbVerb::Follow)
    } else if says(word, b"dead") {
        Some(VbVerb::Dead)
    } else if says(word, b"tick") {
        Some(VbVerb::Tick)
    } else if says(word, b"seal") {
        Some(VbVerb::Seal)
    } else if says(word, b"trim") {
        Some(VbVerb::Trim)
    } else if says(word, b"take") {
        Some(VbVerb::Take)
    } else if says(word, b"save") {
        Some(VbVerb::Save)
    } else if says(word, b"done") {
        Some(VbVerb::Done)
    } else if says(word, b"stat") {
        Some(VbVerb::Stat)
    } else if says(word, b"log") {
        Some(VbVerb::Log)
    } else {
        None
    }
}

/// What a line of three words says that names a vBucket.
fn vbucket_verb(word: &[u8], n: &[u8], v: &[u8]) -> Option<Verb>
    ensures { result ≡ vbucket_words word.now n.now v.now }
{
    let (node, vb) = (node(n)?, vbucket(v)?);
    let what = verb_of_vb(word)?;
    Some(Verb::AtVb { node, vb, what })
}

/// What a crash leaves, in one word.
fn kept(word: &[u8]) -> Option<Outcome>
    ensures { result ≡ kept_of word.now }
{
    if says(word, b"old") {
        Some(Outcome::Old)
    } else if says(word, b"new") {
        Some(Outcome::New)
    } else {
        None
    }
}

/// What a crash leaves, in two words.
fn filled(word: &[u8], h: &[u8]) -> Option<Outcome>
    ensures { result ≡ filled_of word.now h.now }
{
    if says(word, b"fill") {
        Some(Outcome::Fill(byte(h)?))
    } else {
        None
    }
}

/// What a line says that sends these bytes.
pub fn bytes_verb(n: &[u8], c: &[u8], bytes: Option<Bytes>) -> Option<Verb>
    ensures { result ≡ bytes_line n.now c.now bytes }
{
    let (node, client) = (node(n)?, connection(c)?);
    let what = ClientVerb::Bytes { bytes: bytes? };
    Some(Verb::AtClient { node, client, what })
}

fn pull_verb(n: &[u8], c: &[u8], k: &[u8]) -> Option<Verb>
    ensures { result ≡ pull_line n.now c.now k.now }
{
    let (node, client, frames) = (node(n)?, connection(c)?, frames(k)?);
    let what = ClientVerb::Pull { frames };
    Some(Verb::AtClient { node, client, what })
}

/// What a line of four words says.
fn verb_of_four(
    alloc: Global,
    word: &[u8],
    a: &[u8],
    b: &[u8],
    c: &[u8],
) -> Result<Option<Verb>, AllocError>
    ensures { IfOk result (λ verb. verb ≡ four_words word.now a.now b.now c.now) }
{
    if says(word, b"bytes") {
        Ok(bytes_verb(a, b, hex_bytes(alloc, c)?))
    } else {
        Ok(plain_verb_of_four(word, a, b, c))
    }
}

/// What a line of four words says that brings no bytes.
fn plain_verb_of_four(word: &[u8], a: &[u8], b: &[u8], c: &[u8]) -> Option<Verb>
    ensures { result ≡ plain_of_four word.now a.now b.now c.now }
{
    if says(word, b"stop") {
        stop_verb(a, b, kept(c))
    } else if says(word, b"crash") {
        crash_verb(a, filled(b, c))
    } else if says(word, b"pull") {
        pull_verb(a, b, c)
    } else {
        vbucket_verb_of_four(word, a, b, c)
    }
}

/// What a line of four words says that names a vBucket.
fn vbucket_verb_of_four(word: &[u8], n: &[u8], v: &[u8], c: &[u8]) -> Option<Verb>
    ensures { result ≡ vbucket_of_four word.now n.now v.now c.now }
{
    let (node, vb) = (node(n)?, vbucket(v)?);
    if says(word, b"vb") && says(c, b"replica") {
        let what = VbVerb::MakeReplica;
        Some(Verb::AtVb { node, vb, what })
    } else if says(word, b"promote") {
        let uuid = number(c)?;
        let what = VbVerb::Promote { uuid };
        Some(Verb::AtVb { node, vb, what })
    } else {
        None
    }
}

/// What a line of five words says.
fn verb_of_five(word: &[u8], a: &[u8], b: &[u8], c: &[u8], d: &[u8]) -> Option<Verb>
    ensures { result ≡ five_words word.now a.now b.now c.now d.now }
{
    if says(word, b"stop") {
        stop_verb(a, b, filled(c, d))
    } else {
        vb_verb(word, a, b, c, d)
    }
}

/// What a line says that makes an active vBucket.
fn vb_verb(word: &[u8], n: &[u8], v: &[u8], role: &[u8], u: &[u8]) -> Option<Verb>
    ensures { result ≡ vb_line word.now n.now v.now role.now u.now }
{
    if !says(word, b"vb") || !says(role, b"active") {
        return None;
    }
    let (node, vb, uuid) = (node(n)?, vbucket(v)?, number(u)?);
    let what = VbVerb::MakeActive { uuid };
    Some(Verb::AtVb { node, vb, what })
}

/// Whether a link takes over, by the last word of its line.
fn takes_over(mode: &[u8]) -> Option<bool>
    ensures { result ≡ link_mode mode.now }
{
    if says(mode, b"follow") {
        Some(false)
    } else if says(mode, b"takeover") {
        Some(true)
    } else {
        None
    }
}

/// On what terms a link dials: the bytes of its buffer, and whether it takes over.
#[tactic(auto, unfolding(crate::specs::Grammar::terms_in))]
fn terms(b: &[u8], mode: &[u8]) -> Option<(u32, bool)>
    ensures { result ≡ terms_in b.now mode.now }
{
    Some((buffer(b)?, takes_over(mode)?))
}

fn link_verb(l: &[u8], m: &[u8], n: &[u8], v: &[u8], terms: Option<(u32, bool)>) -> Option<Verb>
    ensures { result ≡ linked l.now m.now n.now v.now terms }
{
    let (id, from, to, vb) = (connection(l)?, node(m)?, node(n)?, vbucket(v)?);
    let (buffer, takeover) = terms?;
    Some(Verb::Link {
        id,
        from,
        to,
        vb,
        buffer,
        takeover,
    })
}

/// The numbers that words say, if each says one.
fn numbers(alloc: Global, words: &[&[u8]]) -> Result<Option<Listed<u64>>, AllocError>
    ensures { IfOk result (λ numbers. numbers ≡ numbers_of (map (λ word. word.now) words.now)) }
{
    let mut numbers = Listed::new(alloc);
    for word in words {
        let Some(said) = number(word) else {
            return Ok(None);
        };
        numbers.push(said)?;
    }
    Ok(Some(numbers))
}

/// The branches that words name, if they are not too many.
fn branches(alloc: Global, words: &[&[u8]]) -> Result<Option<Listed<u64>>, AllocError>
    ensures { IfOk result (λ uuids. uuids ≡ branches_of (map (λ word. word.now) words.now)) }
{
    if words.len() > BRANCHES {
        return Ok(None);
    }
    numbers(alloc, words)
}

fn start_verb(n: &[u8], uuids: Option<Listed<u64>>) -> Option<Verb>
    ensures { result ≡ start_line n.now uuids }
{
    let node = node(n)?;
    let what = NodeVerb::Start { uuids: uuids? };
    Some(Verb::AtNode { node, what })
}

/// A member of a chain, where `-` is one that is not set.
fn member(word: &[u8]) -> Option<Option<u8>>
    ensures { result ≡ member_of word.now }
{
    if says(word, b"-") {
        Some(None)
    } else {
        Some(Some(node(word)?))
    }
}

/// The members that words say, if each says one.
fn members(alloc: Global, words: &[&[u8]]) -> Result<Option<Listed<Option<u8>>>, AllocError>
    ensures { IfOk result (λ members. members ≡ members_of (map (λ word. word.now) words.now)) }
{
    let mut members = Listed::new(alloc);
    for word in words {
        let Some(said) = member(word) else {
            return Ok(None);
        };
        members.push(said)?;
    }
    Ok(Some(members))
}

/// The members that words name, if they are not too many.
fn others(alloc: Global, words: &[&[u8]]) -> Result<Option<Listed<Option<u8>>>, AllocError>
    ensures { IfOk result (λ others. others ≡ others_of (map (λ word. word.now) words.now)) }
{
    if words.len() > OTHERS {
        return Ok(None);
    }
    members(alloc, words)
}

fn chain_verb(n: &[u8], v: &[u8], others: Option<Listed<Option<u8>>>) -> Option<Verb>
    ensures { result ≡ chain_line n.now v.now others }
{
    let (node, vb) = (node(n)?, vbucket(v)?);
    let what = VbVerb::Chain { others: others? };
    Some(Verb::AtVb { node, vb, what })
}

/// What a line that sets a chain says behind its node.
fn verb_of_chain(alloc: Global, n: &[u8], words: &[&[u8]]) -> Result<Option<Verb>, AllocError>
    ensures { IfOk result (λ verb. verb ≡ chain_words n.now (map (λ word. word.now) words.now)) }
{
    match words {
        [v, more @ ..] => Ok(chain_verb(n, v, others(alloc, more)?)),
        [] => Ok(None),
    }
}

/// What the words of a line say.
pub fn verb(alloc: Global, words: &[&[u8]]) -> Result<Option<Verb>, AllocError>
    ensures { IfOk result (λ verb. verb ≡ verb_of (map (λ word. word.now) words.now)) }
{
    let [word, n, more @ ..] = words else {
        return Ok(None);
    };
    if says(word, b"start") {
        Ok(start_verb(n, branches(alloc, more)?))
    } else if says(word, b"chain") {
        verb_of_chain(alloc, n, more)
    } else {
        counted_verb(alloc, words)
    }
}

/// What the words of a line say that starts no node and sets no chain, by how many they are.
fn counted_verb(alloc: Global, words: &[&[u8]]) -> Result<Option<Verb>, AllocError>
    ensures { IfOk result (λ verb. verb ≡ counted_verb (map (λ word. word.now) words.now)) }
{
    match words {
        [word, a] => Ok(verb_of_two(word, a)),
        [word, a, b] => Ok(verb_of_three(word, a, b)),
        [word, a, b, c] => verb_of_four(alloc, word, a, b, c),
        [word, a, b, c, d] => Ok(verb_of_five(word, a, b, c, d)),
        [word, l, m, n, v, b, mode] => {
            let terms = terms(b, mode);
            if says(word, b"link") {
                Ok(link_verb(l, m, n, v, terms))
            } else {
                Ok(None)
            }
        }
        _ => Ok(None),
    }
}

//! Who holds a prepare, and whether that is enough.
ghost use Rattle.std.specs.Prelude.{◌≡◌, ◌≤◌, length, vec_len};
ghost use Rattle.std.specs.VecDeque.{deque_len};
ghost use Rattle.durability.specs.Chains as chains;
ghost use Rattle.durability.specs.Outstanding.{acked};

use crate::waiting::Waiting;
use std::collections::VecDeque;
use vb_types::Level;

/// How many of the other members are set.
pub fn named(others: &[Option<u8>]) -> usize
    ensures count { result ≡ length (chains.named others.now) }
    ensures few { result ≤ length others.now }
{
    let mut count = 0;
    let mut rest = others;
    while let Some((first, more)) = rest.split_first() {
        if first.is_some() {
            count += 1;
        }
        rest = more;
    }
    count
}

/// How many of the other members acknowledged a seqno or a greater one.
fn holders(acks: &[u64], others: &[Option<u8>], seq: u64) -> usize
    requires { length acks.now ≡ 256 }
    ensures count { result ≡ length (chains.holders (acked acks.now) others.now seq) }
    ensures few { result ≤ length others.now }
{
    let mut count = 0;
    let mut rest = others;
    while let Some((first, more)) = rest.split_first() {
        if let Some(member) = first {
            if seq <= acks[usize::from(*member)] {
                count += 1;
            }
        }
        rest = more;
    }
    count
}

/// More than half of a chain with these other members.
pub fn majority(others: &[Option<u8>]) -> usize
    requires { length others.now ≤ 3 }
    ensures { result ≡ chains.majority (chains.chain_length others.now) }
{
    (1 + others.len()) / 2 + 1
}

/// Whether a prepare has what it needs to be committed.
pub fn has_enough(acks: &[u64], others: &[Option<u8>], saved: u64, prepare: &Waiting) -> bool
    requires acks { length acks.now ≡ 256 }
    requires others { length others.now ≤ 3 }
    ensures { result ≡ chains.has_enough (acked acks.now) others.now saved prepare.now }
{
    let is_saved = prepare.seq <= saved;
    let elsewhere = holders(acks, others, prepare.seq);
    let (here, enough) = match prepare.level {
        Level::Majority => (1, true),
        Level::MajorityPersistActive => (1, is_saved),
        Level::PersistMajority => (if is_saved { 1 } else { 0 }, is_saved),
    };
    majority(others) <= elsewhere + here && enough
}

/// How many prepares, from the first on, have what they need one after the other.
pub fn enough_in_turn(
    acks: &[u64],
    others: &[Option<u8>],
    saved: u64,
    waiting: &VecDeque<Waiting>,
) -> usize
    requires acks { length acks.now ≡ 256 }
    requires others { length others.now ≤ 3 }
    ensures count { result ≡ length (chains.committed_now (acked acks.now) others.now saved waiting.now.items) }
    ensures within { result ≤ deque_len waiting.now }
{
    let mut count = 0;
    for prepare in waiting {
        if !has_enough(acks, others, saved, prepare) {
            return count;
        }
        count += 1;
    }
    count
}

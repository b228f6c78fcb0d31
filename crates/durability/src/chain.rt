//! The nodes that hold a vBucket's durable writes.
ghost use Rattle.std.specs.Prelude.{◌≡◌, ◌≤◌, true, length};
ghost use Rattle.durability.specs.Chains.{named, has_not, differ, chain_of};

use std::marker::Model;

/// The most members of a chain beside the active node.
pub const MAX_OTHERS: usize = 3;

/// A chain: the active node's number, and up to three other members, some of them unset. All are
/// different.
#[derive(Drop)]
pub struct Chain {
    active: u8,
    others: Vec<Option<u8>>,
}

impl Model for Chain {
    ghost use Rattle.std.specs.Prelude.{◌≡◌, true};
    ghost use Rattle.durability.specs.Chains.{Links, links_code, is_chain};

    ghost Value = { Links };

    ghost coded = { links_code };

    ghost view = { λ c. record { active = c.active; others = c.others.items } };

    ghost invariant = { λ c. is_chain c.active c.others.items ≡ true };
}

impl Chain {
    /// The chain of these members; `None` where there are more than three others, or two are the same.
    pub fn new(active: u8, others: Vec<Option<u8>>) -> Option<Chain>
        ensures { result ≡ chain_of active others.items }
    {
        if others.len() <= MAX_OTHERS && lacks(&others, active) && are_different(&others) {
            Some(Chain { active, others })
        } else {
            None
        }
    }

    /// The active node's number.
    pub fn active(&self) -> u8
        ensures { result ≡ self.now.active }
    {
        self.active
    }

    /// The other members.
    pub fn others(&self) -> &[Option<u8>]
        ensures { result.now ≡ self.now.others }
    {
        &self.others
    }

    /// The other members, as a list of its own.
    pub(crate) fn into_others(self) -> Vec<Option<u8>>
        ensures members { result.items ≡ self.others }
        ensures few { length result.items ≤ 3 }
        ensures different { differ (named result.items) ≡ true }
    {
        self.others
    }
}

/// Whether none of the set members has this number.
fn lacks(others: &[Option<u8>], member: u8) -> bool
    ensures { result ≡ has_not member (named others.now) }
{
    let mut rest = others;
    while let Some((first, more)) = rest.split_first() {
        if *first == Some(member) {
            return false;
        }
        rest = more;
    }
    true
}

/// Whether no two of the set members have one number.
fn are_different(others: &[Option<u8>]) -> bool
    ensures { result ≡ differ (named others.now) }
{
    let mut rest = others;
    while let Some((first, more)) = rest.split_first() {
        if let Some(member) = first {
            if !lacks(more, *member) {
                return false;
            }
        }
        rest = more;
    }
    true
}

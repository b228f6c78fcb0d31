//! How the first snapshot of a stream is sent.
ghost use Rattle.std.specs.Prelude.{◌≡◌, if◌then◌else◌, map, IfOk};
ghost use Rattle.vb_types.specs.Histories.{plain};
ghost use Rattle.vb_types.specs.declared.change.Act.TheVariants.{Remove, Set};
ghost use Rattle.dcp_producer.specs.Firsts.{first_of};

use crate::Alloc;
use snap_range::effective;
use std::alloc::Global;
use vb_types::{Act, Change, Doc, Listed, StreamAsk};

/// What a request means for the first snapshot that its stream is sent.
#[derive(Clone, Copy)]
pub struct First {
    /// Where it starts.
    pub start: u64,
    /// Its commits are sent as sets and removals: it starts below the request's start, so its
    /// consumer may lack their prepares.
    pub as_sets: bool,
}

impl First {
    /// Of the stream that this request asks for.
    pub fn of(ask: &StreamAsk) -> First
        ensures { result ≡ first_of ask.now }
    {
        let (start, _) = effective(ask.start, ask.ss, ask.se);
        First {
            start,
            as_sets: start < ask.start,
        }
    }
}

/// The set or the removal of a document.
fn plain_act(doc: &Doc, deleted: bool) -> Alloc<Act>
    ensures { IfOk result (λ act. act ≡ (if deleted then Remove doc.now.cas doc.now.rev else Set doc.now)) }
{
    if deleted {
        return Ok(Act::Remove {
            cas: doc.cas,
            rev: doc.rev,
        });
    }
    Ok(Act::Set(doc.copy()?))
}

/// A change, or the set or removal that a commit stands for.
fn written_out(change: &Change) -> Alloc<Change>
    ensures { IfOk result (λ sent. sent ≡ plain change.now) }
{
    match &change.act {
        Act::Commit { doc, deleted, .. } => {
            let key = change.key.clone()?;
            let act = plain_act(doc, *deleted)?;
            Ok(Change {
                seq: change.seq,
                key,
                act,
            })
        }
        _ => change.copy(),
    }
}

/// Changes with their commits written out. They share their bytes.
fn all_written_out(alloc: Global, changes: &[Change]) -> Alloc<Listed<Change>>
    ensures { IfOk result (λ items. items ≡ map plain changes.now) }
{
    let mut items = Listed::new(alloc);
    for change in changes {
        items.push(written_out(change)?)?;
    }
    Ok(items)
}

/// The items of a first snapshot.
pub fn first_items(alloc: Global, first: First, items: Listed<Change>) -> Alloc<Listed<Change>>
    ensures { IfOk result (λ sent. sent ≡ (if first.as_sets then map plain items else items)) }
{
    if !first.as_sets {
        return Ok(items);
    }
    all_written_out(alloc, items.as_slice())
}

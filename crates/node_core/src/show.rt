//! The lines that show a vBucket.
ghost use Rattle.std.specs.Prelude.{◌≡◌, ◌++◌, map, None, IfOk, OnOk};
ghost use Rattle.std.specs.FinMap.{entries};
ghost use Rattle.{node_core.specs.Admin.{show_result}, node_core.specs.Outs.{admin_out}, node_core.specs.Shown.{document_line, image_lines, prepare_line}};

use crate::{Alloc, NodeOut};
use bytes::Bytes;
use std::alloc::Global;
use vb_calls::VbAnswer;
use vb_events::{Cause, Event};
use vb_types::{Doc, Image, Key, Listed, Pend};

/// The line of a document.
fn document(key: &Key, doc: &Doc) -> Alloc<Event>
    ensures { IfOk result (λ line. line ≡ document_line (key.now, doc.now)) }
{
    Ok(Event::Document {
        key: key.clone()?,
        doc: doc.copy()?,
    })
}

/// The line of a pending prepare.
fn prepared(key: &Key, pend: &Pend) -> Alloc<Event>
    ensures { IfOk result (λ line. line ≡ prepare_line (key.now, pend.now)) }
{
    Ok(Event::Prepared {
        key: key.clone()?,
        seq: pend.seq,
        level: pend.level,
    })
}

/// Tells the documents by key.
fn tell_docs(alloc: Global, events: &mut Listed<Event>, image: &Image) -> Alloc<()>
    ensures { OnOk result (events.new ≡ events.old ++ map document_line (entries image.now.docs)) }
{
    let docs = image.docs().list(alloc)?;
    for &(key, doc) in &docs {
        events.push(document(key, doc)?)?;
    }
    Ok(())
}

/// Tells the pending prepares by key.
fn tell_prepares(alloc: Global, events: &mut Listed<Event>, image: &Image) -> Alloc<()>
    ensures { OnOk result (events.new ≡ events.old ++ map prepare_line (entries image.now.pending)) }
{
    let prepares = image.prepares().list(alloc)?;
    for &(key, pend) in &prepares {
        events.push(prepared(key, pend)?)?;
    }
    Ok(())
}

/// Tells the documents by key, and then the pending prepares by key.
fn tell_image(alloc: Global, events: &mut Listed<Event>, image: &Image) -> Alloc<()>
    ensures { OnOk result (events.new ≡ events.old ++ image_lines image.now) }
{
    tell_docs(alloc, events, image)?;
    tell_prepares(alloc, events, image)
}

/// What a Show comes to.
pub fn show_out(alloc: Global, node: u8, vb: u16, answer: &VbAnswer) -> Alloc<NodeOut>
    ensures { IfOk result (λ out. out ≡ admin_out None (show_result node vb answer.now)) }
{
    let VbAnswer::Shown {
        role,
        uuid,
        ss,
        se,
        at,
        image,
    } = answer
    else {
        return Ok(NodeOut::refused(alloc, Cause::WrongRole));
    };
    let mut events = Listed::one(
        alloc,
        Event::Shown {
            node,
            vb,
            role: *role,
            uuid: *uuid,
            at: *at,
            ss: *ss,
            se: *se,
            docs: image.docs().len() as u64,
            preps: image.prepares().len() as u64,
        },
    )?;
    tell_image(alloc, &mut events, image)?;
    Ok(NodeOut::done(alloc, events, Bytes::new()))
}

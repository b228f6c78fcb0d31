//! What a consumer writes when it dials.
ghost use Rattle.std.specs.Prelude.{◌≡◌, ◌≤◌, ◌++◌, length, map, decimal, IfOk, OnOk};
ghost use Rattle.{std.specs.List.{concat}, mcbp_dcp.specs.DcpFrames.{dcp_frame, IsSpelled}};
ghost use Rattle.dcp_consumer.specs.Dialing.{member_name, open_request, buffer_request, buffer_requests, sync_request, name_request, numbered, flagged, stream_opaque, requests};
ghost use Rattle.mcbp_frame.specs.Spelling.{spelling};

use crate::{Alloc, Dialed};
use bytes::{Bytes, BytesMut};
use mcbp_dcp::{DcpMsg, write_dcp};
use std::alloc::Global;
use vb_types::StreamAsk;

/// The opaque of the first request for the stream, behind those for all else; each later one has the
/// next.
pub fn stream_opaque(buffer: u32) -> u32
    ensures { result ≡ stream_opaque buffer }
{
    if buffer == 0 { 4 } else { 5 }
}

/// A request for a stream, with the flags of its link: 1 where it takes the vBucket over, and else 0.
pub fn flagged(takeover: bool, ask: StreamAsk) -> StreamAsk
    ensures { result ≡ flagged takeover ask }
{
    StreamAsk {
        flags: u32::from(takeover),
        ..ask
    }
}

/// The name of a node as a member.
#[tactic(auto, using(crate::proofs::Names::short_name))]
fn member_name(alloc: Global, node: u8) -> Alloc<Bytes>
    ensures name { IfOk result (λ name. name ≡ member_name node) }
    ensures len { 1 ≤ length (member_name node) }
    ensures short { length (member_name node) ≤ 4 }
{
    let name = format!(in alloc; "n{node}")?;
    Bytes::copy_from_slice(alloc, name.as_bytes())
}

/// OPEN, under the node's name.
fn open_request(alloc: Global, node: u8) -> Alloc<DcpMsg>
    ensures message { IfOk result (λ m. m ≡ open_request node) }
    ensures spelled { IfOk result IsSpelled }
{
    Ok(DcpMsg::Open {
        seqno: 0,
        flags: 1,
        name: member_name(alloc, node)?,
    })
}

/// A buffer in decimal.
#[tactic(auto, using(crate::proofs::Names::short_number))]
fn decimal_of(alloc: Global, buffer: u32) -> Alloc<Bytes>
    ensures text { IfOk result (λ text. text ≡ decimal buffer) }
    ensures short { length (decimal buffer) ≤ 10 }
{
    let text = format!(in alloc; "{buffer}")?;
    Bytes::copy_from_slice(alloc, text.as_bytes())
}

/// CONTROL, for the size of the producer's window: a frame goes only while fewer bytes than this are not
/// acknowledged.
fn buffer_request(alloc: Global, buffer: u32) -> Alloc<DcpMsg>
    ensures message { IfOk result (λ m. m ≡ buffer_request buffer) }
    ensures spelled { IfOk result IsSpelled }
{
    Ok(DcpMsg::Control {
        key: Bytes::copy_from_slice(alloc, b"connection_buffer_size")?,
        value: decimal_of(alloc, buffer)?,
    })
}

/// CONTROL, for a stream that carries prepares, commits and aborts.
fn sync_request(alloc: Global) -> Alloc<DcpMsg>
    ensures message { IfOk result (λ m. m ≡ sync_request) }
    ensures spelled { IfOk result IsSpelled }
{
    Ok(DcpMsg::Control {
        key: Bytes::copy_from_slice(alloc, b"enable_sync_writes")?,
        value: Bytes::copy_from_slice(alloc, b"true")?,
    })
}

/// CONTROL, with the name under which the consumer acknowledges.
fn name_request(alloc: Global, node: u8) -> Alloc<DcpMsg>
    ensures message { IfOk result (λ m. m ≡ name_request node) }
    ensures spelled { IfOk result IsSpelled }
{
    Ok(DcpMsg::Control {
        key: Bytes::copy_from_slice(alloc, b"consumer_name")?,
        value: member_name(alloc, node)?,
    })
}

/// Writes a message, and lets it go.
pub fn send(message: DcpMsg, opaque: u32, vb: u16, out: &mut BytesMut) -> Alloc<()>
    requires { IsSpelled message }
    ensures { OnOk result (out.new.items ≡ out.old.items ++ spelling (dcp_frame message opaque vb)) }
{
    let sent = write_dcp(&message, opaque, vb, out);
    drop(message);
    sent
}

/// Asks for the buffer, where it is not 0.
fn ask_for_buffer(buffer: u32, out: &mut BytesMut) -> Alloc<()>
    ensures { OnOk result (out.new.items ≡ out.old.items ++ concat (map spelling (numbered 2 (buffer_requests buffer)))) }
{
    if buffer == 0 {
        return Ok(());
    }
    let request = buffer_request(*out.allocator(), buffer)?;
    send(request, 2, 0, out)
}

/// Writes all that goes out when a consumer dials.
#[tactic(auto, using(crate::proofs::FirstRequests::requests_behind))]
pub fn write_requests(dialed: Dialed, ask: StreamAsk, out: &mut BytesMut) -> Alloc<()>
    ensures { OnOk result (out.new.items ≡ out.old.items ++ requests dialed ask) }
{
    let alloc = *out.allocator();
    let opaque = stream_opaque(dialed.buffer);
    send(open_request(alloc, dialed.node)?, 1, 0, out)?;
    ask_for_buffer(dialed.buffer, out)?;
    send(sync_request(alloc)?, opaque - 2, 0, out)?;
    send(name_request(alloc, dialed.node)?, opaque - 1, 0, out)?;
    let ask = flagged(dialed.takeover, ask);
    send(DcpMsg::StreamRequest { ask }, opaque, dialed.vb, out)
}

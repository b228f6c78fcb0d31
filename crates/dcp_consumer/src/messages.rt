//! What a producer's messages come to.
ghost use Rattle.std.specs.Prelude.{◌≡◌, IfOk, if◌then◌else◌};
ghost use Rattle.{dcp_consumer.specs.Machine.{is_noop, passive_step, message_step, state_in, state_due, state_or}, mcbp_dcp.specs.Messages.{read_of}};
ghost use Rattle.dcp_consumer.specs.declared.handshake.ConsumerStep.TheVariants as the_step;

use crate::passive_stream::passive_read;
use crate::{Alloc, ConsumerStep, Handshake, Passive};
use mcbp_dcp::{DcpFault, DcpMsg, read_dcp};
use mcbp_frame::Frame;
use std::alloc::Global;
use takeover::{TakeOver, TakeStep};
use vb_types::Role;

/// Whether a NOOP was read.
fn is_noop(read: &Option<Result<DcpMsg, DcpFault>>) -> bool
    ensures { result ≡ is_noop read.now }
{
    matches!(read, Some(Ok(DcpMsg::Noop)))
}

/// What a message that is no NOOP comes to: there is none before the grant.
fn passive_step(
    alloc: Global,
    handshake: Handshake,
    read: &Option<Result<DcpMsg, DcpFault>>,
) -> Alloc<ConsumerStep>
    ensures { IfOk result (λ step. step ≡ passive_step handshake read.now) }
{
    match handshake {
        Handshake::Streaming => Ok(ConsumerStep::Passive(passive_read(alloc, read)?)),
        _ => Ok(ConsumerStep::Passive(Passive::Protocol)),
    }
}

/// What was read of a message with this opaque comes to: a NOOP is answered at any time.
fn read_step(
    alloc: Global,
    handshake: Handshake,
    opaque: u32,
    read: &Option<Result<DcpMsg, DcpFault>>,
) -> Alloc<ConsumerStep>
    ensures { IfOk result (λ step. step ≡ (if is_noop read.now then the_step.Noop opaque else passive_step handshake read.now)) }
{
    if is_noop(read) {
        return Ok(ConsumerStep::Noop(opaque));
    }
    passive_step(alloc, handshake, read)
}

/// The state that was read, if one was.
fn state_in(read: &Option<Result<DcpMsg, DcpFault>>) -> Option<Role>
    ensures { result ≡ state_in read.now }
{
    match read {
        Some(Ok(DcpMsg::SetVbucketState { role })) => Some(*role),
        _ => None,
    }
}

/// What a state has a consumer do, where states are taken, one was read, and it is in order.
fn state_due(taking: Option<TakeOver>, state: Option<Role>) -> Option<TakeStep>
    ensures { result ≡ state_due taking state }
{
    let (Some(mut taking), Some(role)) = (taking, state) else {
        return None;
    };
    taking.state(role)
}

/// What a message comes to, of a consumer that is so far in a takeover, if it takes states.
pub fn message_step(
    alloc: Global,
    handshake: Handshake,
    taking: Option<TakeOver>,
    frame: &Frame,
) -> Alloc<ConsumerStep>
    ensures { IfOk result (λ step. step ≡ state_or frame.now.opaque (state_due taking (state_in (read_of frame.now))) (message_step handshake frame.now)) }
{
    let read = read_dcp(alloc, frame)?;
    let step = match state_due(taking, state_in(&read)) {
        Some(take) => Ok(ConsumerStep::State {
            take,
            opaque: frame.opaque,
        }),
        None => read_step(alloc, handshake, frame.opaque, &read),
    };
    drop(read);
    step
}

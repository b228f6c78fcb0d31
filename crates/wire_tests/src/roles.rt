//! The message that names a vBucket's role, with each byte, and its answer: read, and written again.
use crate::reading::frame_of;
use bytes::BytesMut;
use mcbp_dcp::{DcpFault, DcpMsg, read_dcp, write_dcp};
use std::alloc::{AllocError, Global};
use std::test::Fail;
use vb_types::Role;

// The opaque is 0x0a0b0c0d and the vBucket 0x0102; the extras are one byte.
const ACTIVE: &[u8] = b"\x80\x5b\0\0\x01\0\x01\x02\0\0\0\x01\x0a\x0b\x0c\x0d\0\0\0\0\0\0\0\0\x01";

const REPLICA: &[u8] = b"\x80\x5b\0\0\x01\0\x01\x02\0\0\0\x01\x0a\x0b\x0c\x0d\0\0\0\0\0\0\0\0\x02";

const PENDING: &[u8] = b"\x80\x5b\0\0\x01\0\x01\x02\0\0\0\x01\x0a\x0b\x0c\x0d\0\0\0\0\0\0\0\0\x03";

const DEAD: &[u8] = b"\x80\x5b\0\0\x01\0\x01\x02\0\0\0\x01\x0a\x0b\x0c\x0d\0\0\0\0\0\0\0\0\x04";

const ROLES: [(&[u8], Role); 4] = [
    (ACTIVE, Role::Active),
    (REPLICA, Role::Replica),
    (PENDING, Role::Pending),
    (DEAD, Role::Dead),
];

// Bytes that are no role's, no byte, and two.
const OTHERS: [&[u8]; 5] = [
    b"\x80\x5b\0\0\x01\0\x01\x02\0\0\0\x01\x0a\x0b\x0c\x0d\0\0\0\0\0\0\0\0\0",
    b"\x80\x5b\0\0\x01\0\x01\x02\0\0\0\x01\x0a\x0b\x0c\x0d\0\0\0\0\0\0\0\0\x05",
    b"\x80\x5b\0\0\x01\0\x01\x02\0\0\0\x01\x0a\x0b\x0c\x0d\0\0\0\0\0\0\0\0\xff",
    b"\x80\x5b\0\0\0\0\x01\x02\0\0\0\0\x0a\x0b\x0c\x0d\0\0\0\0\0\0\0\0",
    b"\x80\x5b\0\0\x02\0\x01\x02\0\0\0\x02\x0a\x0b\x0c\x0d\0\0\0\0\0\0\0\0\x03\x01",
];

// The status 0x0102 stands where a request has its vBucket.
const ANSWER: &[u8] = b"\x81\x5b\0\0\0\0\x01\x02\0\0\0\0\x0a\x0b\x0c\x0d\0\0\0\0\0\0\0\0";

/// What a test compares of what is read.
#[derive(Clone, Copy, Debug, PartialEq, Eq)]
enum Said {
    Names(Role),
    Answers(u16),
    WrongExtras,
    Else,
}

fn said_of(read: &Option<Result<DcpMsg, DcpFault>>) -> Said {
    match read {
        Some(Ok(DcpMsg::SetVbucketState { role })) => Said::Names(*role),
        Some(Ok(DcpMsg::StateAnswer { status })) => Said::Answers(*status),
        Some(Err(DcpFault::WrongExtras)) => Said::WrongExtras,
        _ => Said::Else,
    }
}

/// What the frame that bytes begin with says.
fn said_in(alloc: Global, bytes: &[u8]) -> Result<Said, Fail> {
    let frame = frame_of(alloc, bytes)?;
    let read = read_dcp(alloc, &frame)?;
    let said = said_of(&read);
    drop(read);
    Ok(said)
}

/// The bytes of a message that names a role.
fn named(alloc: Global, role: Role) -> Result<BytesMut, AllocError> {
    let mut out = BytesMut::new(alloc);
    let message = DcpMsg::SetVbucketState { role };
    write_dcp(&message, 0x0a0b0c0d, 0x0102, &mut out)?;
    Ok(out)
}

/// The bytes of its answer.
fn answered(alloc: Global, status: u16) -> Result<BytesMut, AllocError> {
    let mut out = BytesMut::new(alloc);
    write_dcp(&DcpMsg::StateAnswer { status }, 0x0a0b0c0d, 0, &mut out)?;
    Ok(out)
}

/// The first role that is read or written otherwise than in its row.
fn first_other(alloc: Global) -> Result<Option<Role>, Fail> {
    for (bytes, role) in &ROLES {
        let out = named(alloc, *role)?;
        if out.as_slice() != *bytes || said_in(alloc, bytes)? != Said::Names(*role) {
            return Ok(Some(*role));
        }
    }
    Ok(None)
}

#[test]
fn each_role_has_its_byte(rt: HostRuntime) -> Result<(), Fail> {
    assert_eq!(rt; first_other(rt.alloc())?, None);
    Ok(())
}

#[test]
fn other_bytes_are_wrong_extras(rt: HostRuntime) -> Result<(), Fail> {
    for bytes in &OTHERS {
        assert_eq!(rt; said_in(rt.alloc(), bytes)?, Said::WrongExtras);
    }
    Ok(())
}

#[test]
fn the_answer_is_a_status(rt: HostRuntime) -> Result<(), Fail> {
    assert_eq!(rt; said_in(rt.alloc(), ANSWER)?, Said::Answers(0x0102));
    assert_eq!(rt; answered(rt.alloc(), 0x0102)?.as_slice(), ANSWER);
    Ok(())
}

//! Frames between a producer at node 0 and a consumer at node 1, of a stream of vBucket 3. The
//! requests have the opaques 1 to 4, and what belongs to the stream has 4.

// OPEN by n1.
pub const OPEN: &[u8] = b"\x80\x50\0\x02\x08\0\0\0\0\0\0\x0a\0\0\0\x01\0\0\0\0\0\0\0\0\
    \0\0\0\0\0\0\0\x01n1";

// A request for the stream from 0 on, of no branch.
pub const ASK: &[u8] = b"\x80\x53\0\0\x30\0\0\x03\0\0\0\x30\0\0\0\x04\0\0\0\0\0\0\0\0\
    \0\0\0\0\0\0\0\0\0\0\0\0\0\0\0\0\xff\xff\xff\xff\xff\xff\xff\xff\
    \0\0\0\0\0\0\0\0\0\0\0\0\0\0\0\0\0\0\0\0\0\0\0\0";

// What n1 writes when it dials: OPEN, both controls, and the request.
pub const DIAL: &[u8] = b"\x80\x50\0\x02\x08\0\0\0\0\0\0\x0a\0\0\0\x01\0\0\0\0\0\0\0\0\
    \0\0\0\0\0\0\0\x01n1\
    \x80\x5e\0\x12\0\0\0\0\0\0\0\x16\0\0\0\x02\0\0\0\0\0\0\0\0enable_sync_writestrue\
    \x80\x5e\0\x0d\0\0\0\0\0\0\0\x0f\0\0\0\x03\0\0\0\0\0\0\0\0consumer_namen1\
    \x80\x53\0\0\x30\0\0\x03\0\0\0\x30\0\0\0\x04\0\0\0\0\0\0\0\0\
    \0\0\0\0\0\0\0\0\0\0\0\0\0\0\0\0\xff\xff\xff\xff\xff\xff\xff\xff\
    \0\0\0\0\0\0\0\0\0\0\0\0\0\0\0\0\0\0\0\0\0\0\0\0";

// The same where the vBucket has the snapshot from 0 to 2 whole, on branch 7.
pub const DIAL_ABOVE: &[u8] = b"\x80\x50\0\x02\x08\0\0\0\0\0\0\x0a\0\0\0\x01\0\0\0\0\0\0\0\0\
    \0\0\0\0\0\0\0\x01n1\
    \x80\x5e\0\x12\0\0\0\0\0\0\0\x16\0\0\0\x02\0\0\0\0\0\0\0\0enable_sync_writestrue\
    \x80\x5e\0\x0d\0\0\0\0\0\0\0\x0f\0\0\0\x03\0\0\0\0\0\0\0\0consumer_namen1\
    \x80\x53\0\0\x30\0\0\x03\0\0\0\x30\0\0\0\x04\0\0\0\0\0\0\0\0\
    \0\0\0\0\0\0\0\0\0\0\0\0\0\0\0\x02\xff\xff\xff\xff\xff\xff\xff\xff\
    \0\0\0\0\0\0\0\x07\0\0\0\0\0\0\0\0\0\0\0\0\0\0\0\x02";

// What n1 writes when it dials to take the vBucket over.
pub const DIAL_TO_TAKE: &[u8] = b"\x80\x50\0\x02\x08\0\0\0\0\0\0\x0a\0\0\0\x01\0\0\0\0\0\0\0\0\
    \0\0\0\0\0\0\0\x01n1\
    \x80\x5e\0\x12\0\0\0\0\0\0\0\x16\0\0\0\x02\0\0\0\0\0\0\0\0enable_sync_writestrue\
    \x80\x5e\0\x0d\0\0\0\0\0\0\0\x0f\0\0\0\x03\0\0\0\0\0\0\0\0consumer_namen1\
    \x80\x53\0\0\x30\0\0\x03\0\0\0\x30\0\0\0\x04\0\0\0\0\0\0\0\0\
    \0\0\0\x01\0\0\0\0\0\0\0\0\0\0\0\0\xff\xff\xff\xff\xff\xff\xff\xff\
    \0\0\0\0\0\0\0\0\0\0\0\0\0\0\0\0\0\0\0\0\0\0\0\0";

// The same where the vBucket has the snapshot from 0 to 2 whole, on branch 7.
pub const DIAL_TO_TAKE_ABOVE: &[u8] =
    b"\x80\x50\0\x02\x08\0\0\0\0\0\0\x0a\0\0\0\x01\0\0\0\0\0\0\0\0\
    \0\0\0\0\0\0\0\x01n1\
    \x80\x5e\0\x12\0\0\0\0\0\0\0\x16\0\0\0\x02\0\0\0\0\0\0\0\0enable_sync_writestrue\
    \x80\x5e\0\x0d\0\0\0\0\0\0\0\x0f\0\0\0\x03\0\0\0\0\0\0\0\0consumer_namen1\
    \x80\x53\0\0\x30\0\0\x03\0\0\0\x30\0\0\0\x04\0\0\0\0\0\0\0\0\
    \0\0\0\x01\0\0\0\0\0\0\0\0\0\0\0\x02\xff\xff\xff\xff\xff\xff\xff\xff\
    \0\0\0\0\0\0\0\x07\0\0\0\0\0\0\0\0\0\0\0\0\0\0\0\x02";

// The states pending and active, and the answer to either.
pub const PENDING: &[u8] = b"\x80\x5b\0\0\x01\0\0\x03\0\0\0\x01\0\0\0\x04\0\0\0\0\0\0\0\0\x03";

pub const ACTIVE: &[u8] = b"\x80\x5b\0\0\x01\0\0\x03\0\0\0\x01\0\0\0\x04\0\0\0\0\0\0\0\0\x01";

pub const STATE_ANSWER: &[u8] = b"\x81\x5b\0\0\0\0\0\0\0\0\0\0\0\0\0\x04\0\0\0\0\0\0\0\0";

// The request that follows a rollback to 0, on branch 7.
pub const ASK_AGAIN: &[u8] = b"\x80\x53\0\0\x30\0\0\x03\0\0\0\x30\0\0\0\x05\0\0\0\0\0\0\0\0\
    \0\0\0\0\0\0\0\0\0\0\0\0\0\0\0\0\xff\xff\xff\xff\xff\xff\xff\xff\
    \0\0\0\0\0\0\0\x07\0\0\0\0\0\0\0\0\0\0\0\0\0\0\0\0";

// The request that follows a rollback to 1, on branch 7.
pub const ASK_FROM_ONE: &[u8] = b"\x80\x53\0\0\x30\0\0\x03\0\0\0\x30\0\0\0\x05\0\0\0\0\0\0\0\0\
    \0\0\0\0\0\0\0\0\0\0\0\0\0\0\0\x01\xff\xff\xff\xff\xff\xff\xff\xff\
    \0\0\0\0\0\0\0\x07\0\0\0\0\0\0\0\x01\0\0\0\0\0\0\0\x01";

// The answer to OPEN.
pub const OPENED: &[u8] = b"\x81\x50\0\0\0\0\0\0\0\0\0\0\0\0\0\x01\0\0\0\0\0\0\0\0";

// The answers to both controls.
pub const CONTROLLED: &[u8] = b"\x81\x5e\0\0\0\0\0\0\0\0\0\0\0\0\0\x02\0\0\0\0\0\0\0\0\
    \x81\x5e\0\0\0\0\0\0\0\0\0\0\0\0\0\x03\0\0\0\0\0\0\0\0";

// All four answers to what n1 writes: the log is that of branch 7.
pub const ANSWERS: &[u8] = b"\x81\x50\0\0\0\0\0\0\0\0\0\0\0\0\0\x01\0\0\0\0\0\0\0\0\
    \x81\x5e\0\0\0\0\0\0\0\0\0\0\0\0\0\x02\0\0\0\0\0\0\0\0\
    \x81\x5e\0\0\0\0\0\0\0\0\0\0\0\0\0\x03\0\0\0\0\0\0\0\0\
    \x81\x53\0\0\0\0\0\0\0\0\0\x10\0\0\0\x04\0\0\0\0\0\0\0\0\0\0\0\0\0\0\0\x07\0\0\0\0\0\0\0\0";

// The answer to the request.
pub const GRANT: &[u8] = b"\x81\x53\0\0\0\0\0\0\0\0\0\x10\0\0\0\x04\0\0\0\0\0\0\0\0\
    \0\0\0\0\0\0\0\x07\0\0\0\0\0\0\0\0";

// The same answer to the request that follows a rollback.
pub const GRANT_AGAIN: &[u8] = b"\x81\x53\0\0\0\0\0\0\0\0\0\x10\0\0\0\x05\0\0\0\0\0\0\0\0\
    \0\0\0\0\0\0\0\x07\0\0\0\0\0\0\0\0";

// Back to 1, in answer to the request.
pub const BACK: &[u8] = b"\x81\x53\0\0\0\0\0\x23\0\0\0\x08\0\0\0\x04\0\0\0\0\0\0\0\0\
    \0\0\0\0\0\0\0\x01";

// NotSupported to OPEN.
pub const UNSUPPORTED_OPEN: &[u8] = b"\x81\x50\0\0\0\0\0\x83\0\0\0\0\0\0\0\x01\0\0\0\0\0\0\0\0";

// NotSupported to a CONTROL, with the opaque of OPEN.
pub const OTHER_OPCODE: &[u8] = b"\x81\x5e\0\0\0\0\0\x83\0\0\0\0\0\0\0\x01\0\0\0\0\0\0\0\0";

// Einval to OPEN.
pub const REFUSED_OPEN: &[u8] = b"\x81\x50\0\0\0\0\0\x04\0\0\0\0\0\0\0\x01\0\0\0\0\0\0\0\0";

// Einval to the request.
pub const REFUSED_ASK: &[u8] = b"\x81\x53\0\0\0\0\0\x04\0\0\0\0\0\0\0\x04\0\0\0\0\0\0\0\0";

// NotMyVbucket to the request.
pub const NO_VBUCKET: &[u8] = b"\x81\x53\0\0\0\0\0\x07\0\0\0\0\0\0\0\x04\0\0\0\0\0\0\0\0";

// KeyEexists to the request.
pub const HELD_ASK: &[u8] = b"\x81\x53\0\0\0\0\0\x02\0\0\0\0\0\0\0\x04\0\0\0\0\0\0\0\0";

// The markers of the snapshots from 0 to 1 and from 0 to 2, from memory.
pub const MARKER: &[u8] = b"\x80\x56\0\0\x14\0\0\x03\0\0\0\x14\0\0\0\x04\0\0\0\0\0\0\0\0\
    \0\0\0\0\0\0\0\0\0\0\0\0\0\0\0\x01\0\0\0\x01";

pub const MARKER_OF_TWO: &[u8] = b"\x80\x56\0\0\x14\0\0\x03\0\0\0\x14\0\0\0\x04\0\0\0\0\0\0\0\0\
    \0\0\0\0\0\0\0\0\0\0\0\0\0\0\0\x02\0\0\0\x01";

// The document `v` of the key `k`, with seqno 1 and revision 1; its CAS is 131,072, its flags are 5
// and its expiration is 6.
pub const MUTATION: &[u8] = b"\x80\x57\0\x01\x1f\0\0\x03\0\0\0\x21\0\0\0\x04\0\0\0\0\0\x02\0\0\
    \0\0\0\0\0\0\0\x01\0\0\0\0\0\0\0\x01\0\0\0\x05\0\0\0\x06\0\0\0\0\0\0\0kv";

// The key `l` is removed, with seqno 2, revision 5 and CAS 12.
pub const DELETION: &[u8] = b"\x80\x58\0\x01\x12\0\0\x03\0\0\0\x13\0\0\0\x04\0\0\0\0\0\0\0\x0c\
    \0\0\0\0\0\0\0\x02\0\0\0\0\0\0\0\x05\0\0l";

// The end of the stream, since it reached its end, and since the role changed.
pub const REACHED: &[u8] = b"\x80\x55\0\0\x04\0\0\x03\0\0\0\x04\0\0\0\x04\0\0\0\0\0\0\0\0\0\0\0\0";

pub const ROLE_CHANGED: &[u8] =
    b"\x80\x55\0\0\x04\0\0\x03\0\0\0\x04\0\0\0\x04\0\0\0\0\0\0\0\0\0\0\0\x02";

// A producer's NOOP with opaque 11, and its answer.
pub const DCP_NOOP: &[u8] = b"\x80\x5c\0\0\0\0\0\0\0\0\0\0\0\0\0\x0b\0\0\0\0\0\0\0\0";

pub const DCP_NOOP_ANSWER: &[u8] = b"\x81\x5c\0\0\0\0\0\0\0\0\0\0\0\0\0\x0b\0\0\0\0\0\0\0\0";

// The same NOOP, the end of the stream, since the role changed, and the NOOP once more.
pub const NOOPS_AND_END: &[u8] = b"\x80\x5c\0\0\0\0\0\0\0\0\0\0\0\0\0\x0b\0\0\0\0\0\0\0\0\
    \x80\x55\0\0\x04\0\0\x03\0\0\0\x04\0\0\0\x04\0\0\0\0\0\0\0\0\0\0\0\x02\
    \x80\x5c\0\0\0\0\0\0\0\0\0\0\0\0\0\x0b\0\0\0\0\0\0\0\0";

// A client's GET, and the answer of a connection to which it is no message of DCP.
pub const GET: &[u8] = b"\x80\0\0\x01\0\0\0\0\0\0\0\x01\0\0\0\x09\0\0\0\0\0\0\0\0k";

pub const UNKNOWN_COMMAND: &[u8] = b"\x81\0\0\0\0\0\0\x81\0\0\0\0\0\0\0\x09\0\0\0\0\0\0\0\0";

// A client's SET of the key k of vBucket 3 to v, with flags 5 and expiration 6.
pub const SET: &[u8] = b"\x80\x01\0\x01\x08\0\0\x03\0\0\0\x0a\0\0\0\x01\0\0\0\0\0\0\0\0\
    \0\0\0\x05\0\0\0\x06kv";

// HELLO for mutation seqnos, and a SET of the key k of vBucket 3 that a majority is to have.
pub const DURABLE: &[u8] =
    b"\x80\x1f\0\0\0\0\0\0\0\0\0\x02\0\0\0\x01\0\0\0\0\0\0\0\0\0\x04\x08\x01\x02\x01\x08\0\0\
\x03\0\0\0\x0d\0\0\0\x09\0\0\0\0\0\0\0\0\x11\x01\0\0\0\x05\0\0\0\x06k{}";

// The same SET, which a majority is to have saved.
pub const DURABLE_SAVED: &[u8] = b"\x08\x01\x02\x01\x08\0\0\x03\0\0\0\x0d\0\0\0\x09\0\0\0\0\0\0\0\0\
    \x11\x03\0\0\0\x05\0\0\0\x06k{}";

// A client's NOOP with opaque 9, in two pieces.
pub const NOOP_FRONT: &[u8] = b"\x80\x0a\0\0\0\0\0\0\0\0\0\0\0\0\0";

pub const NOOP_REST: &[u8] = b"\x09\0\0\0\0\0\0\0\0";

// Its answer.
pub const NOOP_ANSWER: &[u8] = b"\x81\x0a\0\0\0\0\0\0\0\0\0\0\0\0\0\x09\0\0\0\0\0\0\0\0";

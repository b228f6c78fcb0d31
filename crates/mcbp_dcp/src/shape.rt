//! Which extras, key and value the rows have.
ghost use Rattle.std.specs.Prelude.{◌≡◌, length, IsTrue};
ghost use Rattle.mcbp_dcp.specs.Shapes.{extras_size, extras_fit, key_fits, value_fits, shape_fault};

use crate::DcpFault;
use crate::row::DcpRow;
use byteorder::{BigEndian, ByteOrder};
use mcbp_frame::Frame;

/// The longest name of a connection, in bytes.
pub const MAX_NAME: usize = 250;

/// The length of a failover log's entry, in bytes: a branch's id and a seqno.
pub const ENTRY_LEN: usize = 16;

/// The status of a stream that begins.
pub const SUCCESS: u16 = 0x00;

/// The status of a request whose consumer has to roll back.
pub const ROLLBACK: u16 = 0x23;

/// Whether there are no framing extras, the extras are as long as the row's, the length of metadata in
/// them is 0, and their role is one.
fn have_extras(f: &Frame, row: DcpRow) -> bool
    ensures { result ≡ extras_fit row f.now }
{
    let extras = f.extras.as_slice();
    if !f.framing.is_empty() {
        return false;
    }
    match row {
        DcpRow::Open => extras.len() == 8,
        DcpRow::StreamRequest => extras.len() == 48,
        DcpRow::StreamEnd | DcpRow::BufferAcknowledgement => extras.len() == 4,
        DcpRow::SnapshotMarker => extras.len() == 20,
        DcpRow::Mutation => extras.len() == 31 && BigEndian::read_u16(&extras[28..30]) == 0,
        DcpRow::Deletion => extras.len() == 18 && BigEndian::read_u16(&extras[16..18]) == 0,
        DcpRow::Prepare => extras.len() == 31,
        DcpRow::Commit | DcpRow::Abort => extras.len() == 16,
        DcpRow::SeqnoAcknowledged => extras.len() == 8,
        DcpRow::SetVbucketState => extras.len() == 1 && matches!(extras[0], 1..=4),
        _ => extras.is_empty(),
    }
}

fn has_key(f: &Frame, row: DcpRow) -> bool
    ensures { result ≡ key_fits row f.now }
{
    match row {
        DcpRow::Open => !f.key.is_empty() && f.key.len() <= MAX_NAME,
        DcpRow::Control | DcpRow::Mutation | DcpRow::Deletion => true,
        DcpRow::Prepare | DcpRow::Commit | DcpRow::Abort => true,
        _ => f.key.is_empty(),
    }
}

fn has_value(f: &Frame, row: DcpRow) -> bool
    requires { length f.now.extras ≡ extras_size row }
    ensures { result ≡ value_fits row f.now }
{
    match row {
        DcpRow::Control | DcpRow::Mutation => true,
        // A prepare of a removal, which its byte `deleted` says, has no value.
        DcpRow::Prepare => f.extras.as_slice()[29] != 1 || f.value.is_empty(),
        DcpRow::StreamAnswer => match f.vb_or_status {
            SUCCESS => f.value.len() % ENTRY_LEN == 0,
            ROLLBACK => f.value.len() == 8,
            _ => f.value.is_empty(),
        },
        DcpRow::LogAnswer => match f.vb_or_status {
            SUCCESS => f.value.len() % ENTRY_LEN == 0,
            _ => f.value.is_empty(),
        },
        _ => f.value.is_empty(),
    }
}

/// The first part of a frame that is not the row's.
#[tactic(auto, unfolding(crate::specs::Shapes::shape_fault))]
pub fn fault_of(f: &Frame, row: DcpRow) -> Option<DcpFault>
    ensures fault { result ≡ shape_fault row f.now }
    ensures extras { result ≡ None → length f.now.extras ≡ extras_size row }
    ensures value { result ≡ None → IsTrue (value_fits row f.now) }
{
    if !have_extras(f, row) {
        Some(DcpFault::WrongExtras)
    } else if !has_key(f, row) {
        Some(DcpFault::WrongKey)
    } else if !has_value(f, row) {
        Some(DcpFault::WrongValue)
    } else {
        None
    }
}

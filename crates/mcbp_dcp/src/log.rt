//! Failover logs as bytes.
ghost use Rattle.std.specs.Prelude.{◌≡◌, ◌*◌, ◌++◌, length, IfOk, OnOk};
ghost use Rattle.mcbp_dcp.specs.WireLogs.{entry_spelling, entry_in, log_in, log_spelling};

use crate::shape::ENTRY_LEN;
use byteorder::{BigEndian, ByteOrder};
use bytes::{BufMut, Bytes, BytesMut};
use std::alloc::{AllocError, Global};
use vb_types::{Listed, LogEntry};

fn entry_of(bytes: &[u8; 16]) -> LogEntry
    ensures { result ≡ entry_in bytes.now }
{
    LogEntry {
        uuid: BigEndian::read_u64(&bytes[0..8]),
        seq: BigEndian::read_u64(&bytes[8..16]),
    }
}

/// The log that bytes are.
#[tactic(auto, unfolding(crate::specs::WireLogs::log_in))]
pub fn log_of(alloc: Global, bytes: &[u8]) -> Result<Listed<LogEntry>, AllocError>
    ensures { IfOk result (λ log. log ≡ log_in bytes.now) }
{
    let (entries, _) = bytes.as_chunks::<ENTRY_LEN>();
    let mut log = Listed::new(alloc);
    for entry in entries {
        log.push(entry_of(entry))?;
    }
    Ok(log)
}

/// Appends an entry.
fn put_entry(entry: &LogEntry, out: &mut BytesMut) -> Result<(), AllocError>
    ensures { OnOk result (out.new.items ≡ out.old.items ++ entry_spelling entry.now) }
{
    out.put_u64(entry.uuid)?;
    out.put_u64(entry.seq)?;
    Ok(())
}

/// A log as bytes.
pub fn log_bytes(alloc: Global, log: &[LogEntry]) -> Result<Bytes, AllocError>
    ensures spelled { IfOk result (λ bytes. bytes ≡ log_spelling log.now) }
    ensures len { IfOk result (λ bytes. length bytes ≡ ENTRY_LEN * length log.now) }
{
    let mut bytes = BytesMut::new(alloc);
    for entry in log {
        put_entry(entry, &mut bytes)?;
    }
    Ok(bytes.freeze()?)
}

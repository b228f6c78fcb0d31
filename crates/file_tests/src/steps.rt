//! Calls of any disk, none where the disk has not the bytes for it.
use std::alloc::AllocError;
use std::fs::{self, Files};
use std::io;
use vb_disk::{Disk, Put};

/// A call that changes a disk, or makes it outlast a crash.
#[derive(Clone, Copy)]
pub enum Step {
    Write(u64, &'static [u8]),
    Cut(u64),
    Sync,
}

/// Fills the room with the bytes at that place.
pub fn read<D: Disk>(disk: &mut D, at: u64, room: &mut [u8]) -> Option<Put> {
    let size = disk.len();
    if at > size || room.len() as u64 > size - at {
        return None;
    }
    Some(disk.read(at, room))
}

#[tactic(auto, using(vb_disk::proofs::Readied::readied_is))]
fn write<D: Disk>(disk: &mut D, at: u64, bytes: &[u8]) -> Result<Option<Put>, AllocError> {
    if at > disk.len() {
        return Ok(None);
    }
    disk.reserve(at, bytes.len() as u64)?;
    Ok(Some(disk.write_at(at, bytes)))
}

#[tactic(auto, using(vb_disk::proofs::Readied::readied_is))]
fn cut<D: Disk>(disk: &mut D, len: u64) -> Result<Option<Put>, AllocError> {
    if len == 0 || len > disk.len() {
        return Ok(None);
    }
    disk.reserve(len, 0)?;
    Ok(Some(disk.cut(len)))
}

pub fn play<D: Disk>(disk: &mut D, step: Step) -> Result<Option<Put>, AllocError> {
    match step {
        Step::Write(at, bytes) => write(disk, at, bytes),
        Step::Cut(len) => cut(disk, len),
        Step::Sync => Ok(Some(disk.sync())),
    }
}

/// An empty folder of that name.
pub fn make_folder<R: Files + AllocGlobal>(rt: &R, folder: &str) -> io::Result<()> {
    // It is there where an earlier run was cut off.
    let _ = fs::remove_dir_all(rt, folder);
    fs::create_dir(rt, folder)
}

//! How a disk over a file of the system is opened.
ghost use Rattle.std.specs.Prelude.{◌≡◌, IfOk, [], false};
ghost use Rattle.file_disk.specs.Files.{IsBegun};

use crate::file_disk::MAX_END;
use crate::{FileDisk, RawFile};
use std::alloc::Global;
use std::fs::{File, Files, OpenOptions};
use std::io;
use std::os::fd::AsRawFd;

impl<F: RawFile + Drop> FileDisk<F> {
    /// A disk over a file of that many bytes. One without a byte gets its one zero byte, which is
    /// synced before the disk is used. An error is one of the file's, or that it is too long.
    pub fn begin(alloc: Global, mut file: F, len: u64) -> io::Result<FileDisk<F>>
        ensures { IfOk result (λ disk. IsBegun len (F.log file) disk) }
    {
        if len >= MAX_END {
            return Err(io::ErrorKind::FileTooLarge.into());
        }
        if len > 0 {
            return Ok(FileDisk::over(alloc, file, len));
        }
        file.write_whole(0, &[0])?;
        file.sync_all_bytes()?;
        Ok(FileDisk::over(alloc, file, 1))
    }
}

impl FileDisk<File> {
    /// Opens the file of that name in a folder, and makes it where it is missing. Before the disk is
    /// used, the file and the folder are synced.
    pub fn open<R: Files<File = File>>(
        rt: &R,
        alloc: Global,
        folder: &str,
        name: &str,
    ) -> io::Result<FileDisk<File>>
        ensures ready { IfOk result (λ disk. disk.ready ≡ []) }
        ensures sound { IfOk result (λ disk. (disk.failures ≡ 0) × (disk.lost ≡ false)) }
    {
        let path = format!(in alloc; "{folder}/{name}")?;
        let file = OpenOptions::new()
            .read(true)
            .write(true)
            .create(true)
            .open(rt, path.as_str())?;
        let found = file.metadata()?;
        if !found.is_file() {
            return Err(io::ErrorKind::Unsupported.into());
        }
        settle(&file)?;
        let disk = FileDisk::begin(alloc, file, found.len())?;
        File::open(rt, folder)?.sync_all()?;
        Ok(disk)
    }
}

/// Syncs a file, and gives up the system's copies of what it holds: where a sync of an earlier
/// process failed, they may be other than what is on the disk.
fn settle(file: &File) -> io::Result<()> {
    file.sync_all()?;
    let advised = libc::posix_fadvise(file.as_raw_fd(), 0, 0, libc::POSIX_FADV_DONTNEED);
    if advised != 0 {
        return Err(io::Error::from_raw_os_error(advised));
    }
    Ok(())
}

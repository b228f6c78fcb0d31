//! Calls that the system refuses, and calls that are chosen to fail.
use crate::steps::{Step, make_folder, play, read};
use file_disk::{FileDisk, Noting, What};
use std::fs::{self, File, OpenOptions};
use std::io;
use std::test::Fail;
use vb_disk::{Disk, Put};

/// A folder in place of a file, a device, and a folder that is not there.
#[test]
fn what_is_no_file_is_refused(rt: HostRuntime) -> Result<(), Fail> {
    let folder = "file_tests_no_file";
    make_folder(&rt, folder)?;
    fs::create_dir(&rt, "file_tests_no_file/vb0.dcp")?;
    for (folder, name, why) in [
        (folder, "vb0.dcp", io::ErrorKind::IsADirectory),
        ("file_tests_no_such", "vb0.dcp", io::ErrorKind::NotFound),
        ("/dev", "null", io::ErrorKind::Unsupported),
    ] {
        match FileDisk::open(&rt, rt.alloc(), folder, name) {
            Ok(_) => return Err(Fail::new("it was opened")),
            Err(error) => assert_eq!(rt; error.kind(), why, "at {folder}/{name}"),
        }
    }
    fs::remove_dir_all(&rt, folder)?;
    Ok(())
}

/// A device that is full, as the system has one: no byte is counted that was not written.
#[test]
fn a_full_device_fails(rt: HostRuntime) -> Result<(), Fail> {
    let file = OpenOptions::new()
        .read(true)
        .write(true)
        .open(&rt, "/dev/full")?;
    let mut disk = FileDisk::over(rt.alloc(), file, 4);
    for (step, faults) in [
        (Step::Write(0, b"ab"), 1),
        (Step::Write(4, b"cd"), 2),
        (Step::Cut(1), 3),
        (Step::Sync, 4),
    ] {
        assert_eq!(rt; play(&mut disk, step)?, Some(Put::Failed));
        assert_eq!(rt; disk.faults(), faults);
        assert_eq!(rt; disk.len(), 4);
    }
    Ok(())
}

/// A file that may only be read, and that somebody else cut.
#[test]
fn a_short_file_fails(rt: HostRuntime) -> Result<(), Fail> {
    let folder = "file_tests_short";
    make_folder(&rt, folder)?;
    fs::write(&rt, "file_tests_short/vb0.dcp", b"abcdef".as_slice())?;
    let file = File::open(&rt, "file_tests_short/vb0.dcp")?;
    let mut disk = FileDisk::over(rt.alloc(), file, 6);
    assert_eq!(rt; play(&mut disk, Step::Write(1, b"x"))?, Some(Put::Failed));
    let mut room = [0; 6];
    assert_eq!(rt; read(&mut disk, 0, &mut room), Some(Put::Done));
    assert_eq!(rt; &room, b"abcdef");
    fs::write(&rt, "file_tests_short/vb0.dcp", b"abc".as_slice())?;
    assert_eq!(rt; read(&mut disk, 0, &mut room), Some(Put::Failed));
    assert_eq!(rt; disk.faults(), 2);
    fs::remove_dir_all(&rt, folder)?;
    Ok(())
}

/// A write that failed may be tried again; behind a sync that failed no sync is done, and none is
/// asked for. Calls are noted as they were asked, in their order.
#[test]
fn chosen_calls_fail(rt: HostRuntime) -> Result<(), Fail> {
    let folder = "file_tests_chosen";
    make_folder(&rt, folder)?;
    let file = OpenOptions::new()
        .read(true)
        .write(true)
        .create(true)
        .open(&rt, "file_tests_chosen/vb0.dcp")?;
    let noting = Noting::new(rt.alloc(), file, &[3, 5])?;
    let mut disk = FileDisk::begin(rt.alloc(), noting, 0)?;
    for (step, put, len, faults) in [
        (Step::Write(1, b"ab"), Put::Failed, 1, 1),
        (Step::Write(1, b"ab"), Put::Done, 3, 1),
        (Step::Sync, Put::Failed, 3, 2),
        (Step::Sync, Put::Failed, 3, 3),
        (Step::Cut(2), Put::Done, 2, 3),
        (Step::Sync, Put::Failed, 2, 4),
    ] {
        assert_eq!(rt; play(&mut disk, step)?, Some(put));
        assert_eq!(rt; disk.len(), len);
        assert_eq!(rt; disk.faults(), faults);
    }
    let file = disk.into_file();
    let Some(noted) = file.noted() else {
        return Err(Fail::new("memory was short"));
    };
    let asked = [
        (What::Write, 0, b"\0".as_slice(), true),
        (What::Sync, 0, b"", true),
        (What::Write, 1, b"ab", false),
        (What::Write, 1, b"ab", true),
        (What::Sync, 0, b"", false),
        (What::Cut, 2, b"", true),
    ];
    assert_eq!(rt; noted.len(), asked.len());
    for (call, (what, at, bytes, done)) in noted.iter().zip(asked) {
        assert_eq!(rt; call.what(), what);
        assert_eq!(rt; call.at(), at);
        assert_eq!(rt; call.bytes(), bytes);
        assert_eq!(rt; call.done(), done);
    }
    assert_eq!(rt;
        fs::read(&rt, "file_tests_chosen/vb0.dcp")?.as_slice(),
        b"\0a".as_slice()
    );
    fs::remove_dir_all(&rt, folder)?;
    Ok(())
}

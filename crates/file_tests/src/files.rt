//! A disk over a file, beside one in memory.
use crate::steps::{Step, make_folder, play, read};
use file_disk::FileDisk;
use std::fs;
use std::test::Fail;
use vb_disk::{Disk, MemDisk, Put};

const STEPS: [Step; 11] = [
    Step::Sync,
    Step::Write(0, b"hello"),
    Step::Write(5, b" world"),
    Step::Write(3, b"LO W"),
    Step::Sync,
    Step::Write(10, b"d and more"),
    Step::Cut(12),
    Step::Write(12, b""),
    Step::Cut(12),
    Step::Cut(1),
    Step::Write(1, b"i"),
];

/// What is written, cut off and left is there after each step, and after the file is opened anew.
#[test]
fn a_file_is_as_a_disk_in_memory(rt: HostRuntime) -> Result<(), Fail> {
    let folder = "file_tests_as_in_memory";
    make_folder(&rt, folder)?;
    let mut memory = MemDisk::new(rt.alloc())?;
    for step in STEPS {
        let mut disk = FileDisk::open(&rt, rt.alloc(), folder, "vb0.dcp")?;
        assert_eq!(rt; disk.len(), memory.len());
        assert_eq!(rt; play(&mut disk, step)?, Some(Put::Done));
        assert_eq!(rt; play(&mut memory, step)?, Some(Put::Done));
        assert_eq!(rt; disk.len(), memory.len());
        let mut room = vec![in rt.alloc(); 0xffu8; memory.bytes().len()]?;
        assert_eq!(rt; read(&mut disk, 0, &mut room), Some(Put::Done));
        assert_eq!(rt; room.as_slice(), memory.bytes());
        let found = fs::read(&rt, "file_tests_as_in_memory/vb0.dcp")?;
        assert_eq!(rt; found.as_slice(), memory.bytes());
        assert_eq!(rt; disk.faults(), 0);
    }
    fs::remove_dir_all(&rt, folder)?;
    Ok(())
}

/// A new file, and one that a kill left empty, get one zero byte. One that has bytes keeps them.
#[test]
fn a_file_begins_as_one_zero_byte(rt: HostRuntime) -> Result<(), Fail> {
    let folder = "file_tests_begins";
    make_folder(&rt, folder)?;
    fs::write(&rt, "file_tests_begins/empty", b"".as_slice())?;
    fs::write(&rt, "file_tests_begins/old", b"old".as_slice())?;
    for (name, path, bytes) in [
        ("new", "file_tests_begins/new", b"\0".as_slice()),
        ("empty", "file_tests_begins/empty", b"\0".as_slice()),
        ("old", "file_tests_begins/old", b"old".as_slice()),
    ] {
        let disk = FileDisk::open(&rt, rt.alloc(), folder, name)?;
        assert_eq!(rt; disk.len(), bytes.len() as u64);
        assert_eq!(rt; fs::read(&rt, path)?.as_slice(), bytes);
    }
    fs::remove_dir_all(&rt, folder)?;
    Ok(())
}

//! A journal in a file, which is opened again and again.
ghost use Rattle.std.specs.Prelude.{◌≡◌, true};
ghost use Rattle.vb_journal.specs.Payloads.{is_writable};

use crate::steps::make_folder;
use file_disk::FileDisk;
use std::fs;
use std::test::Fail;
use vb_journal::Journal;
use vb_types::Record;

/// A record that can be written down.
#[tactic(auto, using(crate::proofs::Writable::writable_roll))]
fn roll(to: u64) -> Record
    ensures { is_writable result ≡ true }
{
    Record::Roll { to }
}

#[test]
fn records_are_found_again(rt: HostRuntime) -> Result<(), Fail> {
    let folder = "file_tests_journal";
    make_folder(&rt, folder)?;
    for number in 0..20u64 {
        let disk = FileDisk::open(&rt, rt.alloc(), folder, "vb0.dcp")?;
        let Ok((mut journal, records)) = Journal::open(rt.alloc(), disk) else {
            return Err(Fail::new("the journal was not opened"));
        };
        assert_eq!(rt; records.as_slice().len() as u64, number);
        for (place, record) in (0u64..).zip(records.as_slice()) {
            let is_kept = matches!(record, Record::Roll { to } if *to == place);
            assert!(rt; is_kept, "record {place}");
        }
        if journal.append(&roll(number))?.is_err() {
            return Err(Fail::new("the record was not appended"));
        }
    }
    fs::remove_dir_all(&rt, folder)?;
    Ok(())
}

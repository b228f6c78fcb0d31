//! Bytes of a journal that were changed or cut, as both readers read them.
use crate::bytes::{ONE, THREE};
use crate::opened::opened;
use crate::reader::{Book, judge};
use std::alloc::Global;
use std::test::Fail;

/// Whether both readers say the same of these bytes.
fn agree(alloc: Global, bytes: &[u8]) -> Result<bool, Fail> {
    Ok(opened(alloc, bytes)? == Some(judge(bytes)))
}

#[test]
fn whole_journals_are_read(rt: HostRuntime) -> Result<(), Fail> {
    assert!(rt; matches!(judge(&ONE), Book::Whole { records: 1, .. }));
    assert!(rt; matches!(judge(&THREE), Book::Whole { records: 3, .. }));
    assert!(rt; agree(rt.alloc(), &ONE)?);
    assert!(rt; agree(rt.alloc(), &THREE)?);
    Ok(())
}

// A byte's place and new value, and the place of the damage; none where no record is left and nothing is damaged.
const CHANGES: [(usize, u8, Option<u64>); 7] = [
    (0, 0x00, None),
    (0, 0x02, None),
    (5, 0x02, Some(0)),
    (7, 0x03, Some(0)),
    (8, 0x02, Some(0)),
    (4, 0x15, Some(0)),
    (25, 0x01, Some(25)),
];

#[test]
fn changes_are_damage_at_their_gate(rt: HostRuntime) -> Result<(), Fail> {
    for (at, value, damage) in CHANGES {
        let mut bytes = ONE;
        bytes[at] = value;
        let wanted = match damage {
            Some(place) => Book::Damaged { place },
            None => Book::Whole { records: 0, sum: 0 },
        };
        assert_eq!(rt; opened(rt.alloc(), &bytes)?, Some(wanted), "byte {at}");
        assert_eq!(rt; judge(&bytes), wanted, "byte {at}");
    }
    Ok(())
}

#[test]
fn each_byte_is_changed_to_each_value(rt: HostRuntime) -> Result<(), Fail> {
    for at in 0..ONE.len() {
        for value in 0..=255u8 {
            let mut bytes = ONE;
            bytes[at] = value;
            assert!(rt; agree(rt.alloc(), &bytes)?, "byte {at} is {value}");
        }
    }
    Ok(())
}

// Other bits for a byte, and values around what versions, kinds, acts, levels and lengths may be.
const BITS: [u8; 8] = [1, 2, 4, 8, 16, 32, 64, 128];

const VALUES: [u8; 10] = [0, 1, 2, 3, 4, 5, 6, 26, 250, 251];

#[test]
fn each_bit_of_a_batch_is_changed(rt: HostRuntime) -> Result<(), Fail> {
    for at in 0..THREE.len() {
        for bit in BITS {
            let mut bytes = THREE;
            bytes[at] ^= bit;
            assert!(rt; agree(rt.alloc(), &bytes)?, "byte {at}, bit {bit}");
        }
    }
    Ok(())
}

#[test]
fn each_byte_of_a_batch_is_changed_to_few_values(rt: HostRuntime) -> Result<(), Fail> {
    for at in 0..THREE.len() {
        for value in VALUES {
            let mut bytes = THREE;
            bytes[at] = value;
            assert!(rt; agree(rt.alloc(), &bytes)?, "byte {at} is {value}");
        }
    }
    Ok(())
}

// A disk has a byte at least, so none is cut off whole.
#[test]
fn each_front_is_read(rt: HostRuntime) -> Result<(), Fail> {
    for len in 1..=THREE.len() {
        assert!(rt; agree(rt.alloc(), &THREE[..len])?, "{len} bytes");
    }
    for len in 1..=ONE.len() {
        assert!(rt; agree(rt.alloc(), &ONE[..len])?, "{len} bytes");
    }
    Ok(())
}

/// A State's record with its gate, so many times, and a closed gate.
fn long_journal(alloc: Global, records: usize) -> Result<Vec<u8>, Fail> {
    let mut bytes = Vec::new(alloc);
    for _ in 0..records {
        bytes.extend_from_slice(&ONE[..25])?;
    }
    bytes.push(0)?;
    Ok(bytes)
}

#[test]
fn a_long_journal_is_cut_inside_its_last_record(rt: HostRuntime) -> Result<(), Fail> {
    let bytes = long_journal(rt.alloc(), 2_000)?;
    assert!(rt; matches!(judge(&bytes), Book::Whole { records: 2_000, .. }));
    for less in 0..=26 {
        let len = bytes.len().saturating_sub(less);
        assert!(rt; agree(rt.alloc(), &bytes[..len])?, "{less} bytes less");
    }
    for less in 2..=26 {
        let len = bytes.len().saturating_sub(less);
        assert_eq!(rt;
            judge(&bytes[..len]),
            Book::Damaged { place: 49_975 },
            "{less} bytes less"
        );
    }
    Ok(())
}

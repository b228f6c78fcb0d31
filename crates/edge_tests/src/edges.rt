//! An edge in memory.
use edge_io::{Bell, Edge, EdgeCall, Host, Listener, MemEdge, Opened};
use std::test::Fail;
use vb_disk::Disk;

/// The length of a disk.
fn disk_len<E: Edge>(edge: &mut E, v: u16) -> Option<u64> {
    match edge.disk(v) {
        Opened::Is(disk) => {
            let len = disk.len();
            edge.disk_back(disk);
            Some(len)
        }
        Opened::NoMemory | Opened::Failed => None,
    }
}

/// Whether a port was listened at. The ear fails once, and goes back.
fn hears<E: Edge>(edge: &mut E, port: u16) -> bool {
    match edge.listen(port) {
        Opened::Is(mut ear) => {
            let failed = matches!(ear.accept(), Opened::Failed);
            edge.ear_back(ear);
            failed
        }
        Opened::NoMemory | Opened::Failed => false,
    }
}

fn dials<E: Edge>(edge: &mut E, port: u16) -> bool {
    matches!(edge.dial(port), Opened::Is(_))
}

fn faults<E: Edge>(edge: &E) -> (u64, u64, u64) {
    (
        edge.faults(EdgeCall::OpenDisk),
        edge.faults(EdgeCall::Listen),
        edge.faults(EdgeCall::Dial),
    )
}

#[test]
fn calls_of_a_kind_fail_as_chosen(rt: HostRuntime) -> Result<(), Fail> {
    let fail = [
        (EdgeCall::OpenDisk, 2),
        (EdgeCall::Dial, 1),
        (EdgeCall::Dial, 3),
    ];
    let mut edge = MemEdge::new(rt.alloc(), &[], 0, &fail)?;
    assert_eq!(rt; disk_len(&mut edge, 0), Some(1));
    assert_eq!(rt; disk_len(&mut edge, 1), None);
    assert_eq!(rt; disk_len(&mut edge, 2), Some(1));
    assert_eq!(rt; faults(&edge), (1, 0, 0));
    assert!(rt; hears(&mut edge, 11_210));
    assert_eq!(rt; faults(&edge), (1, 1, 0));
    assert!(rt; !dials(&mut edge, 11_210));
    assert!(rt; dials(&mut edge, 11_210));
    assert!(rt; !dials(&mut edge, 11_210));
    assert_eq!(rt; faults(&edge), (1, 1, 2));
    Ok(())
}

fn host_says<H: Host>(host: &mut H) -> (u64, u64, bool, u64) {
    let word = host.random();
    let clock = host.clock();
    let stop = host.stopped();
    (word, clock, stop, host.stops())
}

#[test]
fn words_and_turns_come_to_an_end(rt: HostRuntime) -> Result<(), Fail> {
    let mut edge = MemEdge::new(rt.alloc(), &[7, 9], 3, &[])?;
    edge.bell().ring();
    for said in [
        (7, 0, false, 0),
        (9, 0, false, 0),
        (0, 0, false, 0),
        (0, 0, true, 1),
        (0, 0, true, 2),
    ] {
        assert_eq!(rt; host_says(&mut edge), said);
    }
    Ok(())
}

//! Links, ears and jobs in memory.
use dcp_io::{MemSink, MemSource, Put, Sink, Source, Took};
use edge_io::{Bell, Link, Listener, MemLink, MemListener, MemSpawner, Opened, Spawner, Started};
use std::alloc::{AllocError, Global};
use std::test::Fail;

/// A link on which these bytes come. Its third take fails, and its second put.
fn link_of(alloc: Global, bytes: &[u8]) -> Result<MemLink, AllocError> {
    let source = MemSource::new(alloc, bytes, &[3])?;
    let sink = MemSink::new(alloc, &[2])?;
    Ok(MemLink::new(source, sink))
}

/// Waits at a link, and takes up to four bytes where there are some: how many came, and why no more.
fn turn<L: Link>(link: &mut L, room: &mut [u8; 4]) -> (usize, &'static str) {
    link.wait();
    if !link.ready() {
        return (0, "nothing");
    }
    match link.take(room) {
        Took::Bytes(count) => (count, "bytes"),
        Took::End => (0, "end"),
        Took::Failed => (0, "failed"),
    }
}

fn put<L: Link>(link: &mut L, bytes: &[u8]) -> &'static str {
    match link.put(bytes) {
        Put::Done => "done",
        Put::NoMemory => "no memory",
        Put::Failed => "failed",
    }
}

/// Rings a bell of the link.
fn rings<L: Link>(link: &mut L) -> bool {
    match link.bell() {
        Opened::Is(bell) => {
            bell.ring();
            true
        }
        Opened::NoMemory | Opened::Failed => false,
    }
}

#[test]
fn a_link_takes_and_puts(rt: HostRuntime) -> Result<(), Fail> {
    let mut link = link_of(rt.alloc(), b"abcdef")?;
    let mut room = [0; 4];
    for (count, why, bytes) in [
        (4, "bytes", b"abcd"),
        (2, "bytes", b"efcd"),
        (0, "failed", b"efcd"),
        (0, "end", b"efcd"),
    ] {
        assert!(rt; rings(&mut link));
        assert_eq!(rt; turn(&mut link, &mut room), (count, why));
        assert_eq!(rt; &room, bytes);
    }
    assert_eq!(rt; Source::faults(&link), 1);
    for (bytes, why) in [
        (b"one".as_slice(), "done"),
        (b"two", "failed"),
        (b"six", "done"),
    ] {
        assert_eq!(rt; put(&mut link, bytes), why);
    }
    assert_eq!(rt; link.bytes(), b"onesix".as_slice());
    assert_eq!(rt; Sink::faults(&link), 1);
    Ok(())
}

/// What comes first on the next link: none where the accept failed.
fn first_of<L: Link + Drop, E: Listener<L>>(ear: &mut E) -> Option<u8> {
    match ear.accept() {
        Opened::Is(mut link) => {
            let mut room = [0; 4];
            turn(&mut link, &mut room);
            Some(room[0])
        }
        Opened::NoMemory | Opened::Failed => None,
    }
}

#[test]
fn an_ear_gives_its_links(rt: HostRuntime) -> Result<(), Fail> {
    let mut links = Vec::new(rt.alloc());
    for bytes in [b"a".as_slice(), b"b", b"c"] {
        links.push(link_of(rt.alloc(), bytes)?)?;
    }
    let mut ear = MemListener::new(rt.alloc(), links, &[2])?;
    for (first, faults) in [
        (Some(b'a'), 0),
        (None, 1),
        (Some(b'b'), 1),
        (Some(b'c'), 1),
        (None, 2),
        (None, 3),
    ] {
        assert_eq!(rt; first_of(&mut ear), first);
        assert_eq!(rt; ear.faults(), faults);
    }
    Ok(())
}

fn starts<S: Spawner<u64>>(spawner: &mut S, job: u64) -> (Started, u64, u64) {
    let answer = spawner.start(job);
    (answer, spawner.started(), spawner.faults())
}

#[test]
fn jobs_start_but_those_chosen(rt: HostRuntime) -> Result<(), Fail> {
    let mut spawner = MemSpawner::new(rt.alloc(), &[1, 4])?;
    for (job, came) in [
        (5, (Started::No, 0, 1)),
        (6, (Started::Yes, 1, 1)),
        (7, (Started::Yes, 2, 1)),
        (8, (Started::No, 2, 2)),
    ] {
        assert_eq!(rt; starts(&mut spawner, job), came);
    }
    Ok(())
}

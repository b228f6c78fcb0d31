//! Two ends of a connection on loopback. Each test ends by itself.
use crate::{TcpEar, TcpLink};
use dcp_io::{Put, Sink, Source, Took};
use edge_io::{Bell, Link, Listener, Opened};
use std::alloc::Global;
use std::net::{Net, TcpListener, TcpStream};
use std::test::Fail;
use std::thread;
use std::time::Duration;

/// An ear, and both ends of a link that came to it.
fn pair<R: Net<Listener = TcpListener, Stream = TcpStream>>(
    rt: &R,
    alloc: Global,
) -> Result<(TcpLink, TcpLink), Fail> {
    let mut ear = TcpEar::listen(rt, alloc, 0)?;
    let near = TcpLink::dial(rt, alloc, ear.port()?)?;
    match ear.accept() {
        Opened::Is(far) => Ok((near, far)),
        Opened::NoMemory | Opened::Failed => Err(Fail::new("no link came")),
    }
}

fn put<L: Sink>(link: &mut L, bytes: &[u8]) -> bool {
    matches!(link.put(bytes), Put::Done)
}

/// Takes until so many bytes came, with a wait before each take, and no more than 1,000 waits.
fn take<L: Link>(link: &mut L, room: &mut [u8]) -> usize {
    let mut count = 0;
    for _ in 0..1_000 {
        if count >= room.len() {
            break;
        }
        link.wait();
        if !link.ready() {
            continue;
        }
        match link.take(&mut room[count..]) {
            Took::Bytes(more) => count += more,
            Took::End | Took::Failed => break,
        }
    }
    count
}

#[test]
fn bytes_come_and_end(rt: HostRuntime) -> Result<(), Fail> {
    let (mut near, mut far) = pair(&rt, rt.alloc())?;
    assert!(rt; !far.ready());
    assert!(rt; put(&mut near, b"hello"));
    let mut room = [0; 5];
    assert_eq!(rt; take(&mut far, &mut room), 5);
    assert_eq!(rt; &room, b"hello");
    // The room is full, and nothing more is there.
    assert!(rt; !far.ready());
    drop(near);
    far.wait();
    assert!(rt; far.ready());
    assert!(rt; matches!(far.take(&mut room), Took::End));
    assert_eq!(rt; Source::faults(&far), 0);
    Ok(())
}

/// A bell that rang before keeps from one sleep, and no byte is there then.
#[test]
fn a_bell_wakes(rt: HostRuntime) -> Result<(), Fail> {
    let (near, mut far) = pair(&rt, rt.alloc())?;
    let Opened::Is(bell) = far.bell() else {
        return Err(Fail::new("no bell"));
    };
    bell.ring();
    far.wait();
    assert!(rt; !far.ready());
    let clock = rt.clone()?;
    let spawned = thread::spawn(&rt, move || {
        thread::sleep(&clock, Duration::from_millis(20));
        bell.ring();
    });
    let Ok(ringing) = spawned else {
        return Err(Fail::new("no thread"));
    };
    far.wait();
    assert!(rt; !far.ready());
    ringing.join(&rt);
    drop(near);
    Ok(())
}

/// A port that nobody listens at any more, and one that is taken.
#[test]
fn what_is_not_there_is_refused(rt: HostRuntime) -> Result<(), Fail> {
    let ear = TcpEar::listen(&rt, rt.alloc(), 0)?;
    let port = ear.port()?;
    assert!(rt; TcpEar::listen(&rt, rt.alloc(), port).is_err());
    drop(ear);
    assert!(rt; TcpLink::dial(&rt, rt.alloc(), port).is_err());
    Ok(())
}

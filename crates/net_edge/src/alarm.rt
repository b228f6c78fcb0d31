//! What ends a sleep at a socket. No contract can say what the system does: this file is to be read.
use libc::net::{EFD_CLOEXEC, EFD_NONBLOCK, POLLIN};
use libc::types::pollfd;
use os::FromRawFd;
use std::io;
use std::os::fd::{AsRawFd, OwnedFd};
use std::sync::atomic::{AtomicU64, Ordering};

/// One thread sleeps, and any number of others ring.
///
/// Who rings first says so in `rang`, and then looks whether the other one sleeps. Who goes to sleep
/// first says so in `sleeps`, and then looks whether somebody rang. So one of the two sees the other,
/// and only who rings at a sleeper makes a call of the system.
#[derive(Drop)]
pub struct Alarm {
    rang: AtomicU64,
    sleeps: AtomicU64,
    event: OwnedFd,
}

/// Why the last call of the system failed.
fn last_error() -> io::Error {
    io::Error::from_raw_os_error(os::errno())
}

/// Asks whether something can be read of a descriptor.
fn to_read(fd: i32) -> pollfd {
    pollfd {
        fd,
        events: POLLIN,
        revents: 0,
    }
}

impl Alarm {
    /// It did not ring yet.
    pub fn new() -> io::Result<Alarm> {
        let event = libc::net::eventfd(0, EFD_CLOEXEC | EFD_NONBLOCK);
        if event < 0 {
            return Err(last_error());
        }
        Ok(Alarm {
            rang: AtomicU64::new(0),
            sleeps: AtomicU64::new(0),
            event: unsafe { OwnedFd::from_raw_fd(event) },
        })
    }

    /// Wakes the one that sleeps, or keeps it from its next sleep.
    pub fn ring(&self) {
        self.rang.store(1, Ordering::SeqCst);
        if self.sleeps.swap(0, Ordering::SeqCst) == 1 {
            libc::write(self.event.as_raw_fd(), &1u64.to_ne_bytes());
        }
    }

    /// Sleeps until something can be read of that socket, or somebody rings: whether something can.
    pub fn sleep(&self, socket: i32) -> bool {
        self.sleeps.store(1, Ordering::SeqCst);
        let rang = self.rang.load(Ordering::SeqCst) == 1;
        let limit = if rang { 0 } else { -1 };
        let can_read = self.look(socket, limit);
        self.sleeps.store(0, Ordering::SeqCst);
        // What was to be told by now is there for whoever slept, as it is put before the ring.
        self.rang.store(0, Ordering::SeqCst);
        can_read
    }

    /// Whether something can be read of that socket, within so many milliseconds, or with no limit
    /// at -1. A socket that failed can be read too: the read says so. A call of the system that
    /// fails, as one that a signal ends, tells nothing.
    pub fn look(&self, socket: i32, limit: i32) -> bool {
        let event = self.event.as_raw_fd();
        let mut asked = [to_read(socket), to_read(event)];
        let count = libc::net::poll(&mut asked, limit);
        if count < 0 {
            return false;
        }
        if asked[1].revents != 0 {
            libc::read(event, &mut [0u8; 8]);
        }
        asked[0].revents != 0
    }
}

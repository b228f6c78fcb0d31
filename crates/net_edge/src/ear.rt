//! An ear at a TCP port.
ghost use Rattle.std.specs.Prelude.{◌≡◌, None, IfOk};

use crate::counts::raise;
use crate::link::TcpLink;
use edge_io::{Listener, Opened};
use std::alloc::Global;
use std::io;
use std::marker::Model;
use std::net::{Ipv4Addr, Net, TcpListener, TcpStream};
use std::os::fd::AsRawFd;

/// How many connections may wait to be accepted.
const BACKLOG: i32 = 4096;

/// How many milliseconds an ear waits where the system is short of descriptors or memory.
const PAUSE: i32 = 10;

/// Where links come to, at a port of 127.0.0.1.
#[derive(Drop)]
pub struct TcpEar {
    alloc: Global,
    listener: TcpListener,
    faults: u64,
}

impl Model for TcpEar {
    ghost use Rattle.std.specs.Prelude.{ℕ};

    ghost Value = { ℕ };

    ghost view = { λ e. e.faults };
}

/// Whether an accept that failed so may be tried again: its connection was gone, or the system is
/// short of descriptors, buffers or memory.
fn passes(error: &io::Error) -> bool {
    match error.kind() {
        io::ErrorKind::ConnectionAborted | io::ErrorKind::Interrupted => true,
        io::ErrorKind::OutOfMemory => true,
        // too many files of the process, and of the system; no buffer space
        _ => matches!(error.raw_os_error(), Some(24 | 23 | 105)),
    }
}

impl TcpEar {
    /// Listens at that port of 127.0.0.1, or at one that the system chooses for 0.
    pub fn listen<R: Net<Listener = TcpListener, Stream = TcpStream>>(
        rt: &R,
        alloc: Global,
        port: u16,
    ) -> io::Result<TcpEar>
        ensures { IfOk result (λ ear. ear ≡ 0) }
    {
        let listener = TcpListener::bind(rt, (Ipv4Addr::LOCALHOST, port))?;
        if libc::net::listen(listener.as_raw_fd(), BACKLOG) < 0 {
            return Err(io::Error::from_raw_os_error(os::errno()));
        }
        Ok(TcpEar {
            alloc,
            listener,
            faults: 0,
        })
    }

    /// The port that it listens at.
    pub fn port(&self) -> io::Result<u16> {
        Ok(self.listener.local_addr()?.port())
    }

    fn link(&self) -> io::Result<TcpLink> {
        let (stream, _) = self.listener.accept()?;
        TcpLink::over(self.alloc, stream)
    }
}

impl Listener<TcpLink> for TcpEar {
    ghost coming = { λ e. None };

    ghost failed = { λ e. e };

    fn accept(&mut self) -> Opened<TcpLink> {
        for _ in 0..u64::MAX {
            match self.link() {
                Ok(link) => return Opened::Is(link),
                Err(error) if passes(&error) => {
                    libc::net::poll(&mut [], PAUSE);
                }
                Err(_) => break,
            }
        }
        self.faults = raise(self.faults, 1);
        Opened::Failed
    }

    fn faults(&self) -> u64 {
        self.faults
    }
}

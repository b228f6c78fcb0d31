//! A link over a TCP stream.
ghost use Rattle.std.specs.Prelude.{◌≡◌, None, IfOk};
ghost use Rattle.net_edge.specs.Streams.{stream_intake, stream_outlet};

use crate::alarm::Alarm;
use crate::counts::raise;
use dcp_io::{Put, Sink, Source, Took};
use edge_io::{Bell, Link, Opened};
use std::alloc::Global;
use std::io::{self, Read, Write};
use std::marker::Model;
use std::net::{Ipv4Addr, Net, TcpStream};
use std::os::fd::AsRawFd;
use std::sync::Arc;
use std::time::Duration;

/// How long a put waits for a peer that takes nothing.
const PATIENCE: u64 = 60;

/// Wakes the one that waits at a link, from any thread.
#[derive(Drop)]
pub struct TcpBell {
    alarm: Arc<Alarm, Global>,
}

impl Bell for TcpBell {
    fn ring(&self) {
        self.alarm.ring();
    }
}

/// A connection. Its socket blocks: only `wait` sleeps, as a take comes where something can be read.
#[derive(Drop)]
pub struct TcpLink {
    stream: TcpStream,
    alarm: Arc<Alarm, Global>,
    /// Whether a take would come back at once, as far as is known.
    can_take: bool,
    taken: u64,
    turns: u64,
    failed_takes: u64,
    failed_puts: u64,
}

impl Model for TcpLink {
    ghost use Rattle.net_edge.specs.Streams.{StreamCounts};

    ghost Value = { StreamCounts };

    ghost view = { λ l. record { taken = l.taken; turns = l.turns; failed_takes = l.failed_takes; failed_puts = l.failed_puts } };
}

impl TcpLink {
    /// A link over this stream, which gave nothing yet.
    pub fn over(alloc: Global, stream: TcpStream) -> io::Result<TcpLink>
        ensures { IfOk result (λ l. l ≡ record { taken = 0; turns = 0; failed_takes = 0; failed_puts = 0 }) }
    {
        stream.set_nodelay(true)?;
        stream.set_write_timeout(Some(Duration::from_secs(PATIENCE)))?;
        Ok(TcpLink {
            stream,
            alarm: Arc::new(alloc, Alarm::new()?)?,
            can_take: false,
            taken: 0,
            turns: 0,
            failed_takes: 0,
            failed_puts: 0,
        })
    }

    /// Dials that port of 127.0.0.1.
    pub fn dial<R: Net<Stream = TcpStream>>(rt: &R, alloc: Global, port: u16) -> io::Result<TcpLink>
        ensures { IfOk result (λ l. l ≡ record { taken = 0; turns = 0; failed_takes = 0; failed_puts = 0 }) }
    {
        let stream = TcpStream::connect(rt, (Ipv4Addr::LOCALHOST, port))?;
        TcpLink::over(alloc, stream)
    }
}

impl Source for TcpLink {
    ghost intake = { stream_intake };

    fn take(&mut self, room: &mut [u8]) -> Took {
        self.turns = raise(self.turns, 1);
        let mut from = &self.stream;
        let came = from.read(room);
        self.can_take = true;
        match came {
            Ok(0) => Took::End,
            Ok(count) => {
                // Also where the room is full: that may have been all, and a take would sleep then.
                self.can_take = false;
                self.taken = raise(self.taken, count as u64);
                Took::Bytes(count)
            }
            Err(_) => {
                self.failed_takes = raise(self.failed_takes, 1);
                Took::Failed
            }
        }
    }

    fn faults(&self) -> u64 {
        self.failed_takes
    }
}

impl Sink for TcpLink {
    ghost outlet = { stream_outlet };

    fn put(&mut self, bytes: &[u8]) -> Put {
        let mut to = &self.stream;
        if to.write_all(bytes).is_ok() {
            return Put::Done;
        }
        self.failed_puts = raise(self.failed_puts, 1);
        Put::Failed
    }

    fn faults(&self) -> u64 {
        self.failed_puts
    }
}

impl Link for TcpLink {
    type Bell = TcpBell;

    ghost gives = { λ l. None };

    fn bell(&mut self) -> Opened<TcpBell> {
        match Arc::try_clone(&self.alarm) {
            Ok(alarm) => Opened::Is(TcpBell { alarm }),
            Err(_) => Opened::NoMemory,
        }
    }

    fn wait(&mut self) {
        if !self.can_take {
            self.can_take = self.alarm.sleep(self.stream.as_raw_fd());
        }
    }

    fn ready(&mut self) -> bool {
        if !self.can_take {
            self.can_take = self.alarm.look(self.stream.as_raw_fd(), 0);
        }
        self.can_take
    }
}

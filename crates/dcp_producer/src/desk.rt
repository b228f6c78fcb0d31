//! What a producer knows of its connection, what OPEN and CONTROL set, and what is refused by it.
ghost use Rattle.std.specs.Prelude.{◌≡◌};
ghost use Rattle.{dcp_producer.specs.Producers.{is_client, is_open, is_named, is_sync, member_named, member_of}, dcp_producer.specs.Serving.{opened, open_refusal, flag_of, named_by, controlled, sized}};

use crate::sizes::size_of;
use mcbp_dcp::MAX_NAME;
use vb_events::StreamName;
use vb_types::Status;

/// Which connection this is: its name in the transcript, its node, and its base, which no other
/// connection of the node has: the upper half of the numbers of its streams, of which the lower
/// half counts from 1.
#[derive(Clone, Copy)]
pub struct Desk {
    pub stream: StreamName,
    pub node: u8,
    pub base: u32,
}

impl Desk {
    /// Whether the connection is a client's.
    pub fn is_client(self) -> bool
        ensures { result ≡ is_client self.stream }
    {
        matches!(self.stream, StreamName::Client(..))
    }
}

/// Who the consumer said that it is.
#[derive(Clone, Copy)]
pub enum Named {
    /// It gave no name.
    Nobody,
    /// Its name is not that of a member of a chain.
    Stranger,
    /// It is this node, as a member of a chain.
    Member(u8),
}

/// What OPEN and CONTROL set, but for the window's size.
#[derive(Clone, Copy)]
pub enum Handshake {
    /// OPEN did not come yet.
    Fresh,
    /// It is open; whether its consumer asked for synchronous writes, and the name that it gave.
    Open { sync_writes: bool, name: Named },
}

impl Named {
    /// Whether it gave a name.
    fn is_given(self) -> bool
        ensures { result ≡ is_named self }
    {
        !matches!(self, Named::Nobody)
    }

    /// Which member of a chain it is.
    fn member(self) -> Option<u8>
        ensures { result ≡ member_named self }
    {
        match self {
            Named::Member(node) => Some(node),
            _ => None,
        }
    }

    /// What a name says: `n0` to `n15` are the nodes 0 to 15 as members.
    fn from_value(value: &[u8]) -> Named
        ensures { result ≡ named_by value.now }
    {
        match value {
            [b'n', digit @ b'0'..=b'9'] => Named::Member(digit - b'0'),
            [b'n', b'1', digit @ b'0'..=b'5'] => Named::Member(10 + (digit - b'0')),
            _ => Named::Stranger,
        }
    }
}

/// What a control's value says, if it is one of the two words of a flag.
fn flag_in(value: &[u8]) -> Option<bool>
    ensures { result ≡ flag_of value.now }
{
    if value == b"true".as_slice() {
        Some(true)
    } else if value == b"false".as_slice() {
        Some(false)
    } else {
        None
    }
}

impl Handshake {
    /// Whether OPEN came.
    pub fn is_open(self) -> bool
        ensures { result ≡ is_open self }
    {
        matches!(self, Handshake::Open { .. })
    }

    /// Whether a stream carries prepares, commits and aborts.
    pub fn is_sync(self) -> bool
        ensures { result ≡ is_sync self }
    {
        match self {
            Handshake::Fresh => false,
            Handshake::Open { sync_writes, name } => sync_writes && name.is_given(),
        }
    }

    /// Which member of a chain the consumer is, by its name.
    pub fn member(self) -> Option<u8>
        ensures { result ≡ member_of self }
    {
        match self {
            Handshake::Fresh => None,
            Handshake::Open { name, .. } => name.member(),
        }
    }

    /// What OPEN sets, or why it is refused.
    pub fn opened(self, flags: u32) -> Result<Handshake, Status>
        ensures { result ≡ opened (open_refusal self flags) }
    {
        if flags > 1 || self.is_open() {
            Err(Status::Einval)
        } else if flags == 0 {
            Err(Status::NotSupported)
        } else {
            Ok(Handshake::Open {
                sync_writes: false,
                name: Named::Nobody,
            })
        }
    }

    /// What a control sets; none before OPEN, and where its key or value is not known.
    pub fn controlled(self, key: &[u8], value: &[u8]) -> Option<Handshake>
        ensures { result ≡ controlled self key.now value.now }
    {
        let Handshake::Open { sync_writes, name } = self else {
            return None
        };
        if key == b"enable_sync_writes".as_slice() {
            let sync_writes = flag_in(value)?;
            return Some(Handshake::Open { sync_writes, name });
        }
        if key == b"consumer_name".as_slice() && !value.is_empty() && value.len() <= MAX_NAME {
            let name = Named::from_value(value);
            return Some(Handshake::Open { sync_writes, name });
        }
        let known = (key == b"enable_noop".as_slice() && flag_in(value).is_some())
            || (key == b"set_noop_interval".as_slice() && size_of(value).is_some());
        if known { Some(self) } else { None }
    }

    /// The size that a control gives the window; none before OPEN, and where its value is no size.
    pub fn sized(self, value: &[u8]) -> Option<u32>
        ensures { result ≡ sized self value.now }
    {
        if self.is_open() { size_of(value) } else { None }
    }
}

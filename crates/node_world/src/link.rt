//! A link: a replica's dial, and the peer's connection at the node that it dialed.
ghost use Rattle.std.specs.Prelude.{◌≡◌, ◌≤◌, ◌==◌, ◌&&◌, length};
ghost use Rattle.{std.specs.List.{position}, node_world.specs.Links.{moved_len}};

use mcbp_frame::ByteQueue;

/// A link: its number in the script, its producer's node and the connection's key there, the vBucket
/// that dialed and its node, and the bytes on their way up to the producer and down to the consumer.
#[derive(Drop)]
pub struct Link {
    pub number: u32,
    pub producer: u8,
    pub conn: usize,
    pub node: u8,
    pub vb: u16,
    pub up: ByteQueue,
    pub down: ByteQueue,
}

/// Where the link of a number stands, if it is open.
pub fn link_place(links: &[Link], l: u32) -> Option<usize>
    ensures { result ≡ position (λ link. link.number == l) links.now }
{
    links.iter().position(|link| link.number == l)
}

/// Where the link stands that feeds a vBucket, if there is one.
pub fn own_place(links: &[Link], n: u8, v: u16) -> Option<usize>
    ensures { result ≡ position (λ link. link.node == n && link.vb == v) links.now }
{
    links.iter().position(|link| link.node == n && link.vb == v)
}

/// How many bytes are moved: as many as are wanted, or all that there are.
pub fn moved_len(wanted: u64, queue: &ByteQueue) -> usize
    ensures len { result ≡ moved_len wanted queue.now }
    ensures within { result ≤ length queue.now }
{
    let all = queue.len();
    if wanted < all as u64 {
        wanted as usize
    } else {
        all
    }
}

//! Whose turn it is, among the streams of a connection.
ghost use Rattle.std.specs.Prelude.{◌≡◌, ◌==◌, OnOk, OnErr};
ghost use Rattle.std.specs.List.{position};
ghost use Rattle.flow_control.specs.Rings.{new_ring, opened, closed, next_id, turned};

use std::alloc::{AllocError, Global};
use std::marker::Model;

/// The streams of a connection, by their numbers, in the order in which they were opened; and the
/// place behind the one that had the last turn.
#[derive(Drop)]
pub struct Ring {
    ids: Vec<u64>,
    turn: usize,
}

impl Model for Ring {
    ghost use Rattle.flow_control.specs.Rings.{PlainRing, IsRing};

    ghost Value = { PlainRing };

    ghost view = { λ r. record { ids = r.ids.items; turn = r.turn } };

    ghost invariant = { λ r. IsRing (record { ids = r.ids.items; turn = r.turn }) };
}

/// Where a stream stands.
fn place_of(ids: &[u64], id: u64) -> Option<usize>
    ensures { result ≡ position (λ other. other == id) ids.now }
{
    ids.iter().position(|other| *other == id)
}

impl Ring {
    /// No stream.
    pub fn new(alloc: Global) -> Ring
        ensures { result ≡ new_ring }
    {
        Ring {
            ids: Vec::new(alloc),
            turn: 0,
        }
    }

    /// A stream was opened. An `Err` changes nothing.
    pub fn add(&mut self, id: u64) -> Result<(), AllocError>
        ensures ok { OnOk result (self.new ≡ opened id self.old) }
        ensures err { OnErr result (self.new ≡ self.old) }
    {
        self.ids.push(id)?;
        Ok(())
    }

    /// A stream is over; the others keep their turns.
    pub fn remove(&mut self, id: u64)
        ensures { self.new ≡ closed id self.old }
    {
        if let Some(at) = place_of(&self.ids, id) {
            self.ids.remove(at);
            if at < self.turn {
                self.turn -= 1;
            }
        }
    }

    /// The stream whose turn it is now; the next one's is next.
    pub fn next(&mut self) -> Option<u64>
        ensures id { result ≡ next_id self.old }
        ensures ring { self.new ≡ turned self.old }
    {
        let at = if self.turn < self.ids.len() {
            self.turn
        } else {
            0
        };
        let id = *self.ids.get(at)?;
        self.turn = at + 1;
        Some(id)
    }
}

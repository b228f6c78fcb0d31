//! An ear in memory.
ghost use Rattle.std.specs.Prelude.{◌≡◌, Some, IfOk};
ghost use Rattle.dcp_io.specs.Counts.{raised};
ghost use Rattle.edge_io.specs.{Ears.{Accepts, MemAccepts}, Openings.{CountsFault}};

use crate::counts::raise;
use crate::{Listener, Opened};
use std::alloc::{AllocError, Global};
use std::marker::Model;

/// An ear that gives these links, in their order. The calls of `accept` whose numbers are listed
/// fail, from 1 on, and so does each one where no link is left.
#[derive(Drop)]
pub struct MemListener<L> {
    links: Vec<L>,
    calls: u64,
    fail: Vec<u64>,
    faults: u64,
}

impl<L> Model for MemListener<L> {
    ghost use Rattle.edge_io.specs.Ears.{MemEar, ear_code};

    ghost Value = { MemEar L };

    ghost coded = { ear_code L.code };

    ghost view = { λ e. record { coming = e.links.items; calls = e.calls; fail = e.fail.items; faults = e.faults } };
}

impl<L: Drop> MemListener<L> {
    /// An error is want of memory.
    pub fn new(alloc: Global, links: Vec<L>, fail: &[u64]) -> Result<MemListener<L>, AllocError>
        ensures { IfOk result (λ e. e ≡ record { coming = links.items; calls = 0; fail = fail.now; faults = 0 }) }
    {
        Ok(MemListener {
            links,
            calls: 0,
            fail: fail.to_vec(alloc)?,
            faults: 0,
        })
    }
}

/// An accept failed.
fn failed<L>(faults: &mut u64) -> Opened<L>
    ensures answer { result ≡ Opened.Failed }
    ensures counted { faults.new ≡ raised faults.old 1 }
{
    *faults = raise(*faults, 1);
    Opened::Failed
}

impl<L> Listener<L> for MemListener<L> {
    ghost coming = { λ e. Some e.coming };

    ghost failed = { λ e. e.faults };

    fn accept(&mut self) -> Opened<L>
        ensures given { Accepts (Some self.old.coming) (Some self.new.coming) result }
        ensures counted { CountsFault self.old.faults self.new.faults result }
        ensures exact { MemAccepts self.old self.new result }
    {
        self.calls = raise(self.calls, 1);
        if self.fail.contains(&self.calls) {
            return failed(&mut self.faults);
        }
        if self.links.is_empty() {
            return failed(&mut self.faults);
        }
        Opened::Is(self.links.remove(0))
    }

    fn faults(&self) -> u64 {
        self.faults
    }
}

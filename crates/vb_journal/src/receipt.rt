//! What an append hands out.
ghost use Rattle.std.specs.Prelude.{◌≡◌};
ghost use Rattle.vb_journal.specs.Receipts.{seq_of};

use std::marker::Model;
use vb_types::Record;

/// That a record was appended: the seqno at which its vBucket stands by it. Only an append makes
/// one.
#[derive(Drop)]
pub struct Receipt {
    seq: u64,
}

impl Model for Receipt {
    ghost use Rattle.std.specs.Prelude.{ℕ};

    ghost Value = { ℕ };

    ghost view = { λ r. r.seq };
}

impl Receipt {
    /// Of a record that was appended.
    pub(crate) fn of(noted: &Record) -> Receipt
        ensures { result ≡ seq_of noted.now }
    {
        let seq = match noted {
            Record::State { .. } => 0,
            Record::Rows(batch) => batch.position.at,
            Record::Roll { to } => *to,
        };
        Receipt { seq }
    }

    /// The seqno up to which the vBucket is saved by it.
    pub fn seq(&self) -> u64
        ensures { result ≡ self.now }
    {
        self.seq
    }
}

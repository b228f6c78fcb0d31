//! What a write asks for, and why it is refused.
ghost use Rattle.std.specs.Prelude.{◌≡◌};
ghost use Rattle.std.specs.Option.{option_copied};
ghost use Rattle.vb_calls.specs.State.{is_active};
ghost use Rattle.vb_calls.specs.Writes.{new_cas, new_rev, doc_refusal};

use vb_types::{Doc, Op, Role, Status};

/// The new CAS: the larger of the clock with its low 16 bits cleared and the last one plus 1.
pub fn next_cas(clock: u64, last: u64) -> u64
    ensures { result ≡ new_cas clock last }
{
    (clock - clock % 65536).max(last.saturating_add(1))
}

/// The new revision: 1 plus that of the document, or 1.
pub fn next_rev(doc: Option<&Doc>) -> u64
    ensures { result ≡ new_rev (option_copied doc.entry) }
{
    doc.map_or(1, |doc| doc.rev.saturating_add(1))
}

/// Why a write is refused where its key has this document, or none.
pub fn refusal_by(op: Op, cas: u64, doc: Option<&Doc>) -> Option<Status>
    ensures { result ≡ doc_refusal op cas (option_copied doc.entry) }
{
    match (op, doc) {
        (Op::Add, Some(_)) => Some(Status::KeyEexists),
        (Op::Add, None) => None,
        (Op::Set, None) if cas == 0 => None,
        (_, None) => Some(Status::KeyEnoent),
        (_, Some(doc)) if cas == 0 || cas == doc.cas => None,
        (_, Some(_)) => Some(Status::KeyEexists),
    }
}

/// Whether a vBucket takes writes.
pub fn takes_writes(role: Role) -> bool
    ensures { result ≡ is_active role }
{
    matches!(role, Role::Active)
}

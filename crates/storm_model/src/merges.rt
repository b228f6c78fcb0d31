//! Histories that several callers share.
ghost use Rattle.storm_model.specs.Merging.{OwnOrder, PartHasAll};
ghost use Rattle.storm_model.specs.Ledgers.{SameByKeys};
ghost use Rattle.std.specs.Prelude.{ℕ, List};
ghost use Rattle.vb_calls.specs.declared.calls.VbCall.{VbCall as CallData};
ghost use Rattle.vb_calls.specs.declared.calls.VbReply.{VbReply as ReplyData};

/// Where all entries of a kind are one caller's, they stand in the history in that caller's order.
pub fn own_entries_keep_their_order()
    ensures { OwnOrder (CallData × ReplyData) }
{}

/// Where the gathered entries are all of a history, and those of a kind are one part of them, that part
/// has all of its kind.
pub fn parts_have_all()
    ensures { PartHasAll (CallData × ReplyData) }
{}

/// Writes that are the same at each key, in order, leave the same.
pub fn keys_are_apart()
    ensures { SameByKeys (List ℕ) }
{}

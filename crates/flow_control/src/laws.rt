//! What holds of windows and rings, each the contract of a function that does nothing.
ghost use Rattle.std.specs.Prelude.{◌≡◌, true, false, [], ◌∷◌, None};
ghost use Rattle.flow_control.specs.Laws.{WindowsHold, RingsTurn, next_ids};
ghost use Rattle.flow_control.specs.Windows.{is_open, with_put, with_acked, with_size, new_window};
ghost use Rattle.flow_control.specs.Rings.{new_ring, next_id, turned, opened, closed};

/// A window is open exactly at size 0 and below its size. A frame that goes is added whole, and at size
/// 0 not at all; an acknowledgement takes away its bytes, or all that there are. What is outstanding
/// never reaches the greatest size and the longest frame together.
pub fn windows_hold()
    ensures { WindowsHold }
{}

/// At its edge: with 9 of 10 outstanding a frame goes, with 10 none; a frame of any length is added
/// whole; an acknowledgement takes away no more than there is; at size 0 nothing is added, and what
/// was outstanding stays so.
pub fn windows_in_numbers()
    ensures below { is_open (with_put 9 (new_window 10)) ≡ true }
    ensures edge { is_open (with_put 10 (new_window 10)) ≡ false }
    ensures over { with_put 57 (with_put 9 (new_window 10)) ≡ with_put 66 (new_window 10) }
    ensures more { with_acked 67 (with_put 66 (new_window 10)) ≡ new_window 10 }
    ensures least { is_open (with_acked 56 (with_put 66 (new_window 10))) ≡ false }
    ensures enough { is_open (with_acked 57 (with_put 66 (new_window 10))) ≡ true }
    ensures off { with_put 44 (with_size 0 (with_put 66 (new_window 10))) ≡ with_size 0 (with_put 66 (new_window 10)) }
    ensures again { is_open (with_size 66 (with_size 0 (with_put 66 (new_window 10)))) ≡ false }
{}

/// Streams take turns, in the order in which they were opened: as many turns as streams are open are
/// each stream once. A new one comes behind those that have their turns before the oldest, and one that
/// is closed leaves the others in their order.
pub fn rings_turn()
    ensures { RingsTurn }
{}

/// In numbers: 1 had its turn before 2 was opened, so 2 is next; 1 and 2 were opened, 1 had its turn
/// and 3 was opened, so 2, 3, 1, 2 are next; with 2 closed behind its turn, 3, 1, 3.
pub fn rings_turn_in_numbers()
    ensures late { next_ids 2 (opened 2 (turned (opened 1 new_ring))) ≡ 2 ∷ 1 ∷ [] }
    ensures later { next_ids 4 (opened 3 (turned (opened 2 (opened 1 new_ring)))) ≡ 2 ∷ 3 ∷ 1 ∷ 2 ∷ [] }
    ensures gone { next_ids 3 (closed 2 (turned (turned (opened 3 (opened 2 (opened 1 new_ring)))))) ≡ 3 ∷ 1 ∷ 3 ∷ [] }
    ensures first_gone { next_ids 3 (closed 1 (turned (turned (opened 3 (opened 2 (opened 1 new_ring)))))) ≡ 3 ∷ 2 ∷ 3 ∷ [] }
    ensures none { next_id new_ring ≡ None }
{}

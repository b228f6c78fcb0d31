//! What holds of every turn, each the contract of a function that does nothing.
ghost use Rattle.std.specs.Prelude.{◌≡◌, ℕ, [], ◌∷◌};
ghost use Rattle.vb_turn.specs.History.{after, Legal, top, Sound, Ends};
ghost use Rattle.vb_turn.specs.Turning.{all_parts};
ghost use Rattle.vb_turn.specs.Seats.{called, Called, Published, ClosesWith};
ghost use Rattle.vb_turn.specs.Rows.{put, shown, IsAt, has_put};
ghost use Rattle.vb_turn.specs.declared.view.View.{View};
ghost use Rattle.vb_turn.specs.Laws.{HistoriesSayWhatIsLegal, TurnsAreLegal, NumbersHold, SeatsSplitAndJoin, ClosingsNameTheHistory, SeatsShareOneHistory};

use crate::machine::Machine;

/// A history is legal exactly where each call has the machine's reply behind those before it. Its
/// greatest number is that of a state on the way, and never falls as the history grows.
pub fn histories_say_what_is_legal<M: Machine<C, R>, C, R>()
    ensures { HistoriesSayWhatIsLegal M.next M.number }
{}

/// By a call a seat learns of one history, in which each call, its own and those of others, has the
/// machine's reply at its place. The call is the last; what the seat had seen stands where it stood; its
/// own calls stand at places of their own, in order. A seat with all parts has made each call.
pub fn turns_are_legal<M: Machine<C, R>, C, R>()
    ensures { TurnsAreLegal M.stands M.next M.number }
{}

/// A number that a seat is told is no less than that of any state that it has seen, and some state had
/// it. By its next call the seat has seen one with as much. Whatever it does and others call, a rollback
/// too, it is never told less.
pub fn numbers_hold<M: Machine<C, R>, C, R>()
    ensures { NumbersHold M.stands M.next M.number }
{}

/// A seat that is cut loses the parts that it gives away and nothing else; the new one has seen as much,
/// and made no call. Of two that are joined the one has seen what the other has, and the calls of both
/// are kept, at places that differ; with all parts they are all that is seen.
pub fn seats_split_and_join<M: Machine<C, R>, C, R>()
    ensures { SeatsSplitAndJoin M.stands M.next }
{}

/// A seat that closes has all parts, and has seen the whole history: it has made each call of it, and
/// the object stands for its end.
pub fn closings_name_the_history<M: Machine<C, R>, C, R>()
    ensures { ClosingsNameTheHistory M.stands M.next }
{}

/// By the rule: of what two seats have seen the one begins the other, at most one has the turn, and each
/// call of the history is one seat's own.
pub fn seats_share_one_history<M: Machine<C, R>, C, R>()
    ensures { SeatsShareOneHistory (Sound M.stands M.next M.number) (Ends M.stands M.next) }
{}

/// Of a machine of one number, which a call puts and whose reply is what stood there: on 0 the calls 5
/// and 2 answer 0 and 5, end at 2, and have shown 5. Not legal is one that answers what stood there at
/// the begin, one before which another is left out, and one put before another.
pub fn histories_in_numbers()
    ensures legal { Legal put 0 ((5, 0) ∷ (2, 5) ∷ []) }
    ensures ends { (after put 0 ((5, 0) ∷ (2, 5) ∷ []) ≡ 2) × (top put shown 0 ((5, 0) ∷ (2, 5) ∷ []) ≡ 5) }
    ensures opening { Legal put 0 ((5, 0) ∷ (2, 0) ∷ []) → ⊥ }
    ensures dropped { Legal put 0 ((2, 5) ∷ []) → ⊥ }
    ensures order { Legal put 0 ((2, 5) ∷ (5, 0) ∷ []) → ⊥ }
{}

/// A seat with all parts that put 5 on 0 is answered 5 as it puts 2, not 0; where it has a part alone,
/// another may have put 0 between. A call that joins no history is none, and nor is one behind which no
/// state has shown what the seat was told before.
pub fn turns_in_numbers()
    ensures right { Called IsAt put shown (has_put all_parts 5) (2, 5) (called (has_put all_parts 5) ((5, 0) ∷ []) (2, 5)) }
    ensures other { Called IsAt put shown (has_put 1 5) (2, 0) (called (has_put 1 5) ((5, 0) ∷ (0, 5) ∷ []) (2, 0)) }
    ensures opening { (known : ℕ) (w : View ℕ (ℕ × ℕ)) → Called IsAt put shown (has_put all_parts known) (2, 0) w → ⊥ }
    ensures nothing { (parts known : ℕ) (e : ℕ × ℕ) → Called IsAt put shown (has_put parts known) e (has_put parts known) → ⊥ }
    ensures unshown { (w : View ℕ (ℕ × ℕ)) → Called IsAt put shown (has_put all_parts 6) (2, 5) w → ⊥ }
{}

/// With all parts that seat is told 5, and no seat that has seen as much is told less, or less than it
/// was told before. With all parts it is told no more.
pub fn numbers_in_numbers()
    ensures right { Published IsAt put shown (has_put all_parts 0) 5 (has_put all_parts 5) }
    ensures less { (parts known : ℕ) (w : View ℕ (ℕ × ℕ)) → Published IsAt put shown (has_put parts known) 4 w → ⊥ }
    ensures back { (parts : ℕ) (w : View ℕ (ℕ × ℕ)) → Published IsAt put shown (has_put parts 9) 5 w → ⊥ }
    ensures made_up { (known : ℕ) (w : View ℕ (ℕ × ℕ)) → Published IsAt put shown (has_put all_parts known) 6 w → ⊥ }
{}

/// That seat closes with 5: not with 0, as if its call was lost, and not where a part is missing.
pub fn closings_in_numbers()
    ensures right { ClosesWith IsAt put (has_put all_parts 0) 5 }
    ensures dropped { ClosesWith IsAt put (has_put all_parts 0) 0 → ⊥ }
    ensures fewer { (object : ℕ) → ClosesWith IsAt put (has_put 4294967295 0) object → ⊥ }
{}

//! What holds of giving a vBucket up and of taking it over, each the contract of a function that does
//! nothing.
ghost use Rattle.std.specs.Prelude.{◌≡◌, [], ◌∷◌, Some, None};
ghost use Rattle.vb_types.specs.declared.role.Role.TheVariants.{Active, Replica, Pending, Dead};
ghost use Rattle.takeover.specs.declared.take_over.TakeStep.TheVariants.{Pend, Own};
ghost use Rattle.takeover.specs.GivingUp.{new_give_up};
ghost use Rattle.takeover.specs.TakingOver.{new_take_over};
ghost use Rattle.takeover.specs.Laws.{GivesUpInOrder, TakesOverInOrder, Did, Heard, numbers, steps};

/// The steps of giving up are 1 to 8. From 1, 2, 4, 5 and 6 `done` goes on to the next, and from 3 and 7
/// `answered` does; elsewhere neither changes anything.
pub fn gives_up_in_order()
    ensures { GivesUpInOrder }
{}

/// The whole order from the first step; what comes too early, twice or behind the last changes nothing.
pub fn gives_up_in_numbers()
    ensures order { numbers new_give_up (Did ∷ Did ∷ Heard ∷ Did ∷ Did ∷ Did ∷ Heard ∷ []) ≡ 2 ∷ 3 ∷ 4 ∷ 5 ∷ 6 ∷ 7 ∷ 8 ∷ [] }
    ensures early { numbers new_give_up (Heard ∷ Did ∷ Heard ∷ Did ∷ Heard ∷ []) ≡ 1 ∷ 2 ∷ 2 ∷ 3 ∷ 4 ∷ [] }
    ensures awaits { numbers new_give_up (Did ∷ Did ∷ Did ∷ Did ∷ Heard ∷ Heard ∷ Did ∷ []) ≡ 2 ∷ 3 ∷ 3 ∷ 3 ∷ 4 ∷ 4 ∷ 5 ∷ [] }
    ensures over { numbers new_give_up (Did ∷ Did ∷ Heard ∷ Did ∷ Did ∷ Did ∷ Did ∷ Heard ∷ Did ∷ Heard ∷ []) ≡ 2 ∷ 3 ∷ 4 ∷ 5 ∷ 6 ∷ 7 ∷ 7 ∷ 8 ∷ 8 ∷ 8 ∷ [] }
{}

/// Pending has a node pend exactly where it is the first state, and active has it own the branch exactly
/// right behind; any other state has it do nothing, and changes nothing.
pub fn takes_over_in_order()
    ensures { TakesOverInOrder }
{}

/// In rows: pending and then active; what each of the others does first, behind pending, and at the end.
pub fn takes_over_in_rows()
    ensures order { steps new_take_over (Pending ∷ Active ∷ []) ≡ Some Pend ∷ Some Own ∷ [] }
    ensures first { steps new_take_over (Active ∷ Replica ∷ Dead ∷ Pending ∷ []) ≡ None ∷ None ∷ None ∷ Some Pend ∷ [] }
    ensures second { steps new_take_over (Pending ∷ Pending ∷ Replica ∷ Dead ∷ Active ∷ []) ≡ Some Pend ∷ None ∷ None ∷ None ∷ Some Own ∷ [] }
    ensures last { steps new_take_over (Pending ∷ Active ∷ Active ∷ Replica ∷ Pending ∷ Dead ∷ []) ≡ Some Pend ∷ Some Own ∷ None ∷ None ∷ None ∷ None ∷ [] }
{}

//! What a load makes of a few journals, in numbers; each law as the contract of a function that does
//! nothing.
ghost use Rattle.std.specs.Prelude.{◌≡◌, [], ◌∷◌, None, Some, true, false};
ghost use Rattle.std.specs.Option.{option_map};
ghost use Rattle.{node_core.specs.Loading.{active_ones, are_short, loaded_states, starts_of}, node_core.specs.LoadRows.{entry, first_of, loaded_node, made_only, unmade, saved_to_6, prepared_at_5, commit_of_5, doc_of_5, follower, promoted_at_4, dead_one, batch_to, start_over}};
ghost use Rattle.vb_calls.specs.{Shelves.{Shelf, blank_shelf, Idle}, State.{Plain, complete_position, doc_at}};
ghost use Rattle.vb_disk.specs.declared.fuse.Fuse.TheVariants.{Fail, Off};
ghost use Rattle.vb_events.specs.declared.event.Answer.TheVariants.{No, Ok as Fine};
ghost use Rattle.vb_events.specs.declared.event.Cause.TheVariants.{Closed, Disk};
ghost use Rattle.vb_events.specs.declared.event.Event.TheVariants.{Branch, Changed};
ghost use Rattle.vb_types.specs.declared.journal.Record.TheVariants.{State};
ghost use Rattle.vb_types.specs.declared.role.Role.TheVariants.{Active, Replica, Dead};

/// Where the first record of a vBucket does not stand, there is no vBucket, and its journal is blank.
/// An id for it is not used.
#[tactic(auto, unfolding(vb_calls::specs::Flushes::role_job))]
pub fn unmade_in_numbers()
    ensures vb { (loaded_node 0 (unmade ∷ []) (22 ∷ [])).vbs 0 ≡ None }
    ensures journal { (loaded_node 0 (unmade ∷ []) (22 ∷ [])).shelves 0 ≡ Some blank_shelf }
    ensures told { (loaded_node 0 (unmade ∷ []) (22 ∷ [])).told ≡ [] }
    ensures enough { are_short (unmade ∷ []) [] ≡ false }
{}

/// Where it stands, the vBucket makes a new branch from the old one at 0, and is active on it.
#[tactic(auto, unfolding(vb_calls::specs::Flushes::role_job))]
pub fn made_in_numbers()
    ensures told { (loaded_node 0 (made_only ∷ []) (22 ∷ [])).told ≡ record { events = Branch 0 0 22 (Some 11) 0 0 ∷ []; answer = Fine; resolved = [] } ∷ [] }
    ensures journal { (loaded_node 0 (made_only ∷ []) (22 ∷ [])).shelves 0
        ≡ Some (record { book = State Active (entry 22 0 ∷ entry 11 0 ∷ []) ∷ first_of ∷ []; is_closed = false; flush = Idle; late = None; fuse = Off }) }
    ensures short { are_short (made_only ∷ []) [] ≡ true }
{}

/// One that is saved up to 6, of whatever was written above, is dead until it starts. Then it leaves
/// its old branch there.
#[tactic(auto, unfolding(vb_calls::specs::Flushes::role_job))]
pub fn saved_in_numbers()
    ensures before { option_map (λ (vb : Plain). vb.role) (loaded_states 0 (saved_to_6 ∷ []) 0) ≡ Some Dead }
    ensures told { (loaded_node 0 (saved_to_6 ∷ []) (33 ∷ [])).told ≡ record { events = Branch 0 0 33 (Some 11) 6 6 ∷ []; answer = Fine; resolved = [] } ∷ [] }
    ensures role { option_map (λ (vb : Plain). vb.role) ((loaded_node 0 (saved_to_6 ∷ []) (33 ∷ [])).vbs 0) ≡ Some Active }
    ensures log { option_map (λ (vb : Plain). vb.log) ((loaded_node 0 (saved_to_6 ∷ []) (33 ∷ [])).vbs 0) ≡ Some (entry 33 6 ∷ entry 11 0 ∷ []) }
    ensures position { option_map (λ (vb : Plain). vb.position) ((loaded_node 0 (saved_to_6 ∷ []) (33 ∷ [])).vbs 0) ≡ Some (complete_position 6) }
    ensures saved { option_map (λ (vb : Plain). vb.saved) ((loaded_node 0 (saved_to_6 ∷ []) (33 ∷ [])).vbs 0) ≡ Some 6 }
    ensures floor { option_map (λ (vb : Plain). vb.floor) ((loaded_node 0 (saved_to_6 ∷ []) (33 ∷ [])).vbs 0) ≡ Some 6 }
    ensures journal { (loaded_node 0 (saved_to_6 ∷ []) (33 ∷ [])).shelves 0
        ≡ Some (record { book = State Active (entry 33 6 ∷ entry 11 0 ∷ []) ∷ batch_to 6 6 6 (entry 11 0 ∷ []) ∷ first_of ∷ []; is_closed = false; flush = Idle; late = None; fuse = Off }) }
{}

/// Of four vBuckets two were active: they take the first two ids in their order, each from the
/// branch of its own log. A replica and a dead one keep their roles.
#[tactic(auto, unfolding(vb_calls::specs::Flushes::role_job))]
pub fn several_in_numbers()
    ensures actives { active_ones (saved_to_6 ∷ follower ∷ promoted_at_4 ∷ dead_one ∷ []) ≡ 0 ∷ 2 ∷ [] }
    ensures starts { starts_of (saved_to_6 ∷ follower ∷ promoted_at_4 ∷ dead_one ∷ []) (33 ∷ 44 ∷ 55 ∷ []) ≡ (0, 33) ∷ (2, 44) ∷ [] }
    ensures short { are_short (saved_to_6 ∷ follower ∷ promoted_at_4 ∷ dead_one ∷ []) (33 ∷ []) ≡ true }
    ensures told { (loaded_node 5 (saved_to_6 ∷ follower ∷ promoted_at_4 ∷ dead_one ∷ []) (33 ∷ 44 ∷ 55 ∷ [])).told
        ≡ record { events = Branch 5 0 33 (Some 11) 6 6 ∷ []; answer = Fine; resolved = [] } ∷ record { events = Branch 5 2 44 (Some 22) 2 4 ∷ []; answer = Fine; resolved = [] } ∷ [] }
    ensures replica { option_map (λ (vb : Plain). vb.role) ((loaded_node 5 (saved_to_6 ∷ follower ∷ promoted_at_4 ∷ dead_one ∷ []) (33 ∷ 44 ∷ 55 ∷ [])).vbs 1) ≡ Some Replica }
    ensures place { option_map (λ (vb : Plain). vb.position) ((loaded_node 5 (saved_to_6 ∷ follower ∷ promoted_at_4 ∷ dead_one ∷ []) (33 ∷ 44 ∷ 55 ∷ [])).vbs 1) ≡ Some (record { ss = 2; se = 9; at = 4 }) }
    ensures dead { option_map (λ (vb : Plain). vb.role) ((loaded_node 5 (saved_to_6 ∷ follower ∷ promoted_at_4 ∷ dead_one ∷ []) (33 ∷ 44 ∷ 55 ∷ [])).vbs 3) ≡ Some Dead }
{}

/// A prepare that waits where its node starts is committed at once, on the new branch, as its chain is of
/// the one node alone. The line of the commit stands behind that of the branch.
#[tactic(auto, unfolding(vb_calls::specs::Flushes::role_job))]
pub fn commits_in_numbers()
    ensures told { (loaded_node 0 (prepared_at_5 ∷ []) (33 ∷ [])).told ≡ record { events = Branch 0 0 33 (Some 11) 6 6 ∷ Changed 0 0 33 commit_of_5 ∷ []; answer = Fine; resolved = [] } ∷ [] }
    ensures shown { option_map (λ (vb : Plain). doc_at vb (107 ∷ [])) ((loaded_node 0 (prepared_at_5 ∷ []) (33 ∷ [])).vbs 0) ≡ Some (Some doc_of_5) }
    ensures waiting { option_map (λ (vb : Plain). vb.waiting) ((loaded_node 0 (prepared_at_5 ∷ []) (33 ∷ [])).vbs 0) ≡ Some [] }
    ensures place { option_map (λ (vb : Plain). vb.position) ((loaded_node 0 (prepared_at_5 ∷ []) (33 ∷ [])).vbs 0) ≡ Some (complete_position 7) }
    ensures saved { option_map (λ (vb : Plain). vb.saved) ((loaded_node 0 (prepared_at_5 ∷ []) (33 ∷ [])).vbs 0) ≡ Some 6 }
{}

/// Where the record of a start can't be appended, since its disk fails or an earlier append did, that
/// is the answer. The vBucket is active on its new branch all the same.
#[tactic(auto, unfolding(vb_calls::specs::Flushes::role_job))]
pub fn failed_starts_in_numbers()
    ensures disk { (start_over (record blank_shelf { fuse = Fail 1 })).1 ≡ record { events = Branch 0 0 33 (Some 11) 6 6 ∷ []; answer = No Disk; resolved = [] } }
    ensures closed { (start_over (record blank_shelf { is_closed = true })).1 ≡ record { events = Branch 0 0 33 (Some 11) 6 6 ∷ []; answer = No Closed; resolved = [] } }
    ensures active { option_map (λ (vb : Plain). vb.role) ((start_over (record blank_shelf { fuse = Fail 1 })).0.0 0) ≡ Some Active }
    ensures shut { option_map (λ (shelf : Shelf). shelf.is_closed) ((start_over (record blank_shelf { fuse = Fail 1 })).0.1 0) ≡ Some true }
{}

//! What a vBucket is that was made or loaded, what it shows, and where a stream's snapshots start, each
//! law as the contract of a function that does nothing.
ghost use Rattle.std.specs.Prelude.{◌≡◌, ◌∷◌, [], ℕ, false, true, List, None};
ghost use Rattle.durability.specs.Outstanding.{no_acks};
ghost use Rattle.vb_calls.specs.{Plain.{Plain, plain_step}, State.{image_in, loaded_vb, new_vb, quiet_reply}, Streams.{is_plain, need_of, snapshot_of}};
ghost use Rattle.vb_calls.specs.declared.calls.VbAnswer.TheVariants.{Absent, Logged, Nothing, Placed, Shown, Stat as StatAnswer};
ghost use Rattle.vb_calls.specs.declared.calls.VbCall.TheVariants.{Log, Place, Show, Stat, Take};
ghost use Rattle.vb_types.specs.declared.stream.Place.TheVariants.{Memory, WaitSaved};
ghost use Rattle.vb_types.specs.Images.{Picture, nothing};
ghost use Rattle.vb_types.specs.declared.change.Change.{Change as ChangeData};
ghost use Rattle.vb_types.specs.declared.position.Position.{Position as At};
ghost use Rattle.vb_types.specs.declared.role.LogEntry.{LogEntry as Entry};
ghost use Rattle.vb_types.specs.declared.role.Role.{Role as RoleData};
ghost use Rattle.vb_types.specs.declared.role.Role.TheVariants.{Active, Dead, Pending, Replica};
ghost use Rattle.vb_turn.specs.History.{after, Legal, top};
ghost use Rattle.vbucket.specs.Firsts.{asked_for, feeding, given_to};
ghost use Rattle.vbucket.specs.Highs.{follower_at, high_of, rolled_back, HighsAreLast};

/// Neither a vBucket that was made nor one that was loaded awaits a first marker: it took no log over.
pub fn no_first_markers_are_awaited()
    ensures made { (node uuid : ℕ) (r : RoleData) → (new_vb node r uuid).first ≡ false }
    ensures loaded { (node cas : ℕ) (r : RoleData) (log : List Entry) (p : At) (image : Picture) → (loaded_vb node r log p cas image).first ≡ false }
{}

/// A vBucket that was made has the role that it was made in, and nothing: no change, no document, no
/// stream, and all numbers at 0. An active one is on its branch from 0 on; any other has no log.
pub fn new_ones_are_empty()
    ensures named { (node uuid : ℕ) (r : RoleData) → ((new_vb node r uuid).node ≡ node) × ((new_vb node r uuid).role ≡ r) }
    ensures holds { (node uuid : ℕ) (r : RoleData) → ((new_vb node r uuid).base ≡ nothing) × ((new_vb node r uuid).held ≡ []) × ((new_vb node r uuid).streams ≡ []) }
    ensures stands { (node uuid : ℕ) (r : RoleData) → ((new_vb node r uuid).position ≡ record { ss = 0; se = 0; at = 0 }) × ((new_vb node r uuid).last_cas ≡ 0) }
    ensures spans { (node uuid : ℕ) (r : RoleData) → (new_vb node r uuid).spans ≡ record { sealed = []; current = None } }
    ensures marks { (node uuid : ℕ) (r : RoleData) → ((new_vb node r uuid).floor ≡ 0) × ((new_vb node r uuid).saved ≡ 0) × ((new_vb node r uuid).flushed ≡ 0) }
    ensures alone { (node uuid : ℕ) (r : RoleData) → ((new_vb node r uuid).others ≡ []) × ((new_vb node r uuid).acks ≡ no_acks) × ((new_vb node r uuid).waiting ≡ []) }
    ensures leads { (node uuid : ℕ) → (new_vb node Active uuid).log ≡ record { uuid = uuid; seq = 0 } ∷ [] }
    ensures no_log { (node uuid : ℕ) → ((new_vb node Replica uuid).log ≡ []) × ((new_vb node Pending uuid).log ≡ []) × ((new_vb node Dead uuid).log ≡ []) }
{}

/// A vBucket shows its role, its newest branch or 0, where it stands in its snapshot, and its image, and
/// tells its failover log; neither changes anything.
pub fn vbuckets_are_shown()
    ensures shown { (vb : Plain) → (plain_step (record vb { log = record { uuid = 9; seq = 3 } ∷ record { uuid = 7; seq = 0 } ∷ []; position = record { ss = 2; se = 8; at = 4 } }) Show).1.answer
        ≡ Shown vb.role 9 2 8 4 (image_in vb) }
    ensures no_branch { (vb : Plain) → (plain_step (record vb { log = [] }) Show).1.answer ≡ Shown vb.role 0 vb.position.ss vb.position.se vb.position.at (image_in vb) }
    ensures logged { (vb : Plain) → (plain_step vb Log).1.answer ≡ Logged vb.log }
    ensures stays { (vb : Plain) → ((plain_step vb Show).0 ≡ vb) × ((plain_step vb Log).0 ≡ vb) }
    ensures bare { (vb : Plain) → ((plain_step vb Show).1.changes ≡ []) × ((plain_step vb Log).1.changes ≡ []) }
{}

/// A snapshot starts where its stream stands, and is from memory; how far it has to reach, until one did;
/// and whether its commits are written out, by the stream alone.
pub fn snapshots_start_in_numbers()
    ensures first { (items : List ChangeData) → ((snapshot_of (asked_for true 5 3 9) items).start ≡ 5) × ((snapshot_of (asked_for true 5 3 9) items).disk ≡ false) × ((snapshot_of (asked_for true 5 3 9) items).items ≡ items) }
    ensures later { (items : List ChangeData) → (snapshot_of (given_to 12 (asked_for true 5 3 9)) items).start ≡ 12 }
    ensures inside { (need_of (asked_for true 5 3 9) ≡ 9) × (need_of (given_to 12 (asked_for true 5 3 9)) ≡ 0) }
    ensures at_ends { (need_of (asked_for true 9 4 9) ≡ 9) × (need_of (asked_for true 6 6 9) ≡ 6) × (need_of (asked_for true 0 0 0) ≡ 0) }
    ensures sync { (is_plain (asked_for true 5 3 9) ≡ false) × (is_plain (given_to 12 (asked_for true 5 3 9)) ≡ false) }
    ensures plain { (is_plain (asked_for false 9 4 9) ≡ true) × (is_plain (given_to 12 (asked_for false 5 3 9)) ≡ true) }
{}

/// Over memory that begins at 5: a stream without a cursor waits at 4, and has one from 5 on once it is
/// asked for its place; one that has a cursor keeps it. None is given anything, or counted, without one.
pub fn cursors_in_numbers()
    ensures below { (vb : Plain) → plain_step (feeding vb false 4) (Place 7) ≡ (feeding vb false 4, quiet_reply (Placed WaitSaved)) }
    ensures first { (vb : Plain) → plain_step (feeding vb false 5) (Place 7) ≡ (feeding vb true 5, quiet_reply (Placed Memory)) }
    ensures above { (vb : Plain) → plain_step (feeding vb false 9) (Place 7) ≡ (feeding vb true 9, quiet_reply (Placed Memory)) }
    ensures keeps { (vb : Plain) → plain_step (feeding vb true 9) (Place 7) ≡ (feeding vb true 9, quiet_reply (Placed Memory)) }
    ensures other { (vb : Plain) → plain_step (feeding vb false 9) (Place 8) ≡ (feeding vb false 9, quiet_reply Absent) }
    ensures idle { (vb : Plain) → plain_step (feeding vb false 9) (Take 7) ≡ (feeding vb false 9, quiet_reply Nothing) }
    ensures counted { (vb : Plain) → (plain_step (feeding vb true 9) Stat).1.answer ≡ StatAnswer 0 0 2 vb.saved vb.position.at }
    ensures uncounted { (vb : Plain) → (plain_step (feeding vb false 9) Stat).1.answer ≡ StatAnswer 0 0 1 vb.saved vb.position.at }
{}

/// The number that a vBucket shows as it is called in turns is its last seqno: that which it tells among
/// its numbers, that of a write just made, and the one that a rollback went back to.
pub fn highs_are_last_seqnos()
    ensures { HighsAreLast }
{}

/// A follower at 8 that goes back to 3 shows 3, and the history has shown 8, as before.
pub fn highs_in_numbers()
    ensures legal { (vb : Plain) (image : Picture) (cas : ℕ) → Legal plain_step (follower_at 8 vb) (rolled_back 3 image cas) }
    ensures lower { (vb : Plain) (image : Picture) (cas : ℕ) → (high_of (follower_at 8 vb) ≡ 8) × (high_of (after plain_step (follower_at 8 vb) (rolled_back 3 image cas)) ≡ 3) }
    ensures stays { (vb : Plain) (image : Picture) (cas : ℕ) → (top plain_step high_of (follower_at 8 vb) [] ≡ 8) × (top plain_step high_of (follower_at 8 vb) (rolled_back 3 image cas) ≡ 8) }
{}

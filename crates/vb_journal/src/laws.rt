//! What holds of payloads beyond any one call, each law as the contract of a function.
ghost use Rattle.std.specs.Prelude.{◌≡◌, ◌<◌, ◌++◌, ◌∷◌, [], ℕ, List, length, replicate, Some, None, true, false, IsTrue};
ghost use Rattle.vb_types.specs.declared.journal.Record.{Record as RecordData};
ghost use Rattle.vb_types.specs.declared.journal.Record.TheVariants as noted;
ghost use Rattle.vb_types.specs.declared.change.Level.TheVariants as level;
ghost use Rattle.vb_types.specs.declared.role.Role.TheVariants as role;
ghost use Rattle.vb_journal.specs.Fitting.{AreBytes, Fits};
ghost use Rattle.vb_journal.specs.Payloads.{payload_of, record_in, is_writable};
ghost use Rattle.vb_journal.specs.PayloadRows.{first_state, first_state_bytes, step_back, step_back_bytes, each_act, each_act_bytes, state_row, batch_row, abort_row, act_row, prepare_row, commit_row, value_row, batch_of, prepared, aborted};
ghost use Rattle.vb_journal.specs.Sizes.{payload_size};
ghost use Rattle.vb_journal.specs.declared.payload.TheConstants.{MAX_LOG, MAX_PAYLOAD};

/// A record that is written is read back.
pub fn payloads_read_back()
    ensures { (r : RecordData) → Fits r → IsTrue (is_writable r) → record_in (payload_of r) ≡ Some r }
{}

/// Bytes that are read as a record are the one payload of that record, which an append takes.
pub fn payloads_once()
    ensures bytes { (bytes : List ℕ) (r : RecordData) → AreBytes bytes → record_in bytes ≡ Some r → payload_of r ≡ bytes }
    ensures fits { (bytes : List ℕ) (r : RecordData) → AreBytes bytes → record_in bytes ≡ Some r → Fits r }
    ensures writable { (bytes : List ℕ) (r : RecordData) → AreBytes bytes → record_in bytes ≡ Some r → IsTrue (is_writable r) }
{}

/// One payload of each kind, byte by byte.
pub fn payloads_in_numbers()
    ensures state { (payload_of first_state ≡ first_state_bytes) × (record_in first_state_bytes ≡ Some first_state) }
    ensures rows { (payload_of (noted.Rows each_act) ≡ each_act_bytes) × (record_in each_act_bytes ≡ Some (noted.Rows each_act)) }
    ensures roll { (payload_of step_back ≡ step_back_bytes) × (record_in step_back_bytes ≡ Some step_back) }
    ensures limits { (MAX_LOG ≡ 25) × (MAX_PAYLOAD ≡ 33599999) }
{}

/// What bytes of a State are read, and which are not: its version, kind, role and the length of
/// its log.
pub fn states_in_numbers()
    ensures active { record_in (state_row 1 1 1 0) ≡ Some (noted.State role.Active []) }
    ensures replica { record_in (state_row 1 1 2 0) ≡ Some (noted.State role.Replica []) }
    ensures dead { record_in (state_row 1 1 4 0) ≡ Some (noted.State role.Dead []) }
    ensures role { (record_in (state_row 1 1 0 0) ≡ None) × (record_in (state_row 1 1 3 0) ≡ None) × (record_in (state_row 1 1 5 0) ≡ None) }
    ensures version { (record_in (state_row 0 1 1 0) ≡ None) × (record_in (state_row 2 1 1 0) ≡ None) }
    ensures kind { (record_in (state_row 1 0 1 0) ≡ None) × (record_in (state_row 1 4 1 0) ≡ None) }
    ensures longest { record_in (state_row 1 1 1 25) ≡ Some (noted.State role.Active (replicate 25 (record { uuid = 0; seq = 0 }))) }
    ensures log { record_in (state_row 1 1 1 26) ≡ None }
    ensures cut { (record_in [] ≡ None) × (record_in (1 ∷ []) ≡ None) × (record_in (1 ∷ 1 ∷ []) ≡ None) × (record_in (1 ∷ 1 ∷ 1 ∷ []) ≡ None)
        × (record_in (1 ∷ 1 ∷ 1 ∷ 1 ∷ []) ≡ None) × (record_in (1 ∷ 2 ∷ []) ≡ None) × (record_in (1 ∷ 3 ∷ []) ≡ None) }
{}

/// What bytes of a batch are read, and which are not: the count, the order of seqnos, the length
/// of a key, level, flag, and the length of a value.
pub fn batches_in_numbers()
    ensures count { (record_in (batch_row 0 []) ≡ Some (batch_of [])) × (record_in (batch_row 1 []) ≡ None)
        × (record_in (batch_row 0 (abort_row 5 1)) ≡ None) × (record_in (batch_row 2 (abort_row 5 1)) ≡ None) }
    ensures rise { record_in (batch_row 2 (abort_row 5 1 ++ abort_row 6 1)) ≡ Some (batch_of (aborted 5 1 ∷ aborted 6 1 ∷ [])) }
    ensures order { (record_in (batch_row 2 (abort_row 5 1 ++ abort_row 5 1)) ≡ None) × (record_in (batch_row 2 (abort_row 5 1 ++ abort_row 4 1)) ≡ None) }
    ensures key { (record_in (batch_row 1 (abort_row 5 250)) ≡ Some (batch_of (aborted 5 250 ∷ []))) × (record_in (batch_row 1 (abort_row 5 0)) ≡ None)
        × (record_in (batch_row 1 (abort_row 5 251)) ≡ None) }
    ensures majority { record_in (prepare_row 1 0) ≡ Some (prepared level.Majority false) }
    ensures persist_active { record_in (prepare_row 2 0) ≡ Some (prepared level.MajorityPersistActive false) }
    ensures persist { record_in (prepare_row 3 1) ≡ Some (prepared level.PersistMajority true) }
    ensures level { (record_in (prepare_row 0 0) ≡ None) × (record_in (prepare_row 4 0) ≡ None) }
    ensures flag { (record_in (prepare_row 1 2) ≡ None) × (record_in (commit_row 2) ≡ None) }
    ensures act { (record_in (batch_row 1 (act_row 0)) ≡ None) × (record_in (batch_row 1 (act_row 6)) ≡ None) }
    ensures value { (record_in (value_row 2) ≡ None) × (record_in (value_row 4) ≡ None) }
{}

/// No payload has a byte too many, and none is longer than the longest.
pub fn payloads_end()
    ensures more { (r : RecordData) (byte : ℕ) (more : List ℕ) → Fits r → IsTrue (is_writable r) → record_in (payload_of r ++ byte ∷ more) ≡ None }
    ensures longest { (bytes : List ℕ) → MAX_PAYLOAD < length bytes → record_in bytes ≡ None }
{}

/// How long a payload is.
pub fn payload_lengths()
    ensures { (r : RecordData) → length (payload_of r) ≡ payload_size r }
{}

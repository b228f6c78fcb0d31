//! What an image says of its changes, and numbers; each law as the contract of a function.
ghost use Rattle.std.specs.Prelude.{◌≡◌, ◌^◌, ◌<◌, ◌≤◌, ◌⊎◌, ◌↔◌, ◌∷◌, [], ℕ, true, false, List, length, replicate, Some, None};
ghost use Rattle.std.specs.declared.cmp.Ordering.TheVariants.{Less, Equal, Greater};
ghost use Rattle.vb_types.specs.Keys.{key_cmp};
ghost use Rattle.vb_types.specs.Lasts.{CommitsAsPlain, DocsByLast, PendsByLast};
ghost use Rattle.vb_types.specs.Levels.{is_third, level_number, level_of};
ghost use Rattle.vb_types.specs.Limits.{IsKey, key_of, value_of};
ghost use Rattle.vb_types.specs.Images.{is_older};
ghost use Rattle.vb_types.specs.declared.doc.Doc.{Doc as DocData};
ghost use Rattle.vb_types.specs.Statuses.{status_code};
ghost use Rattle.vb_types.specs.declared.change.Level.{Level as LevelData};
ghost use Rattle.vb_types.specs.declared.change.Level.TheVariants.{Majority, MajorityPersistActive, PersistMajority};
ghost use Rattle.vb_types.specs.declared.key.TheConstants.{MAX_KEY, MAX_VALUE};
ghost use Rattle.vb_types.specs.declared.position.TheConstants.{MAX_SEQ};
ghost use Rattle.vb_types.specs.declared.status.Status.TheVariants.{Success, KeyEnoent, KeyEexists, E2big, Einval, NotMyVbucket, Erange, Rollback, UnknownFrameInfo, UnknownCommand, Enomem, NotSupported, Etmpfail, DurabilityInvalidLevel, DurabilityImpossible, SyncWriteInProgress, SyncWriteAmbiguous, SyncWriteReCommitInProgress};

/// A commit has the effect of the set or the removal of its document at the same seqno.
pub fn commits_as_plain()
    ensures { CommitsAsPlain }
{}

/// Each key's document and pending entry are told by the last change of that slot, so the changes
/// that were replaced need not be known.
pub fn told_by_last()
    ensures docs { DocsByLast }
    ensures pends { PendsByLast }
{}

/// A key has at most 250 bytes, a value at most 20 MiB, and a seqno is at most 2 to the power of 48.
pub fn limits_in_numbers()
    ensures key { MAX_KEY ≡ 250 }
    ensures value { MAX_VALUE ≡ 20971520 }
    ensures seqno { MAX_SEQ ≡ 2 ^ 48 }
{}

/// The number of each status on the wire.
pub fn statuses_in_numbers()
    ensures { (status_code Success ≡ 0x00) × (status_code KeyEnoent ≡ 0x01) × (status_code KeyEexists ≡ 0x02)
        × (status_code E2big ≡ 0x03) × (status_code Einval ≡ 0x04) × (status_code NotMyVbucket ≡ 0x07)
        × (status_code Erange ≡ 0x22) × (status_code Rollback ≡ 0x23) × (status_code UnknownFrameInfo ≡ 0x80)
        × (status_code UnknownCommand ≡ 0x81) × (status_code Enomem ≡ 0x82) × (status_code NotSupported ≡ 0x83)
        × (status_code Etmpfail ≡ 0x86) × (status_code DurabilityInvalidLevel ≡ 0xa0) × (status_code DurabilityImpossible ≡ 0xa1)
        × (status_code SyncWriteInProgress ≡ 0xa2) × (status_code SyncWriteAmbiguous ≡ 0xa3) × (status_code SyncWriteReCommitInProgress ≡ 0xa4) }
{}

/// The numbers of the levels: 1, 2 and 3, and no other number has one.
pub fn levels_in_numbers()
    ensures numbers { (level_number Majority ≡ 1) × (level_number MajorityPersistActive ≡ 2) × (level_number PersistMajority ≡ 3) }
    ensures of { (number : ℕ) (level : LevelData) → (level_of number ≡ Some level) ↔ (number ≡ level_number level) }
    ensures none { (number : ℕ) → (level_of number ≡ None) ↔ ((number < 1) ⊎ (3 < number)) }
    ensures third { (is_third Majority ≡ false) × (is_third MajorityPersistActive ≡ false) × (is_third PersistMajority ≡ true) }
{}

/// Keys are in the order of their bytes: the first byte that differs decides, each as a number from 0 to
/// 255, and of two keys one of which begins with the other the shorter one comes first.
pub fn keys_in_order()
    ensures bytes { (key_cmp (97 ∷ []) (98 ∷ []) ≡ Less) × (key_cmp (98 ∷ []) (97 ∷ []) ≡ Greater) × (key_cmp (127 ∷ []) (128 ∷ []) ≡ Less) × (key_cmp (255 ∷ []) (0 ∷ []) ≡ Greater) }
    ensures front { (key_cmp (97 ∷ 99 ∷ []) (98 ∷ 97 ∷ []) ≡ Less) × (key_cmp (97 ∷ 99 ∷ []) (97 ∷ 98 ∷ []) ≡ Greater) }
    ensures longer { (key_cmp (97 ∷ []) (97 ∷ 0 ∷ []) ≡ Less) × (key_cmp (97 ∷ 0 ∷ []) (97 ∷ []) ≡ Greater) }
    ensures no_length { (key_cmp (98 ∷ []) (97 ∷ 97 ∷ 97 ∷ []) ≡ Greater) × (key_cmp (97 ∷ 97 ∷ 97 ∷ []) (98 ∷ []) ≡ Less) }
    ensures same { (key_cmp (97 ∷ 0 ∷ []) (97 ∷ 0 ∷ []) ≡ Equal) × (key_cmp (65 ∷ []) (97 ∷ []) ≡ Less) }
{}

/// A key has 1 byte to 250, and a value at most 20 MiB, also none.
pub fn lengths_in_numbers()
    ensures none { (key_of [] ≡ None) × (value_of [] ≡ Some []) }
    ensures one { key_of (0 ∷ []) ≡ Some (0 ∷ []) }
    ensures most { key_of (replicate 250 107) ≡ Some (replicate 250 107) }
    ensures more { (key_of (replicate 251 107) ≡ None) × (key_of (replicate 300 107) ≡ None) }
    ensures keys { (bytes : List ℕ) → IsKey bytes ↔ ((1 ≤ length bytes) × (length bytes ≤ 250)) }
{}

/// A change takes away the prepare of its key with a lower seqno, and no other.
pub fn older_prepares_go()
    ensures lower { (level : LevelData) (doc : DocData) → is_older 6 (Some (record { seq = 5; level = level; doc = doc; deleted = false })) ≡ true }
    ensures equal { (level : LevelData) (doc : DocData) → is_older 5 (Some (record { seq = 5; level = level; doc = doc; deleted = false })) ≡ false }
    ensures higher { (level : LevelData) (doc : DocData) → is_older 4 (Some (record { seq = 5; level = level; doc = doc; deleted = false })) ≡ false }
    ensures none { is_older 5 None ≡ false }
{}

//! What holds of DCP messages and their frames beyond any one call, each law as the contract of a
//! function.
ghost use Rattle.std.specs.Prelude.{◌≡◌, ◌≢◌, ◌↔◌, ◌++◌, ◌∷◌, [], ℕ, List, length, ◌≤◌, ◌<◌, ◌^◌, ◌+◌, ◌*◌, true, false, Some, None, Ok, Err, IsTrue, IsFalse, ◌==◌};
ghost use Rattle.std.specs.{List.{list_any}, Option.{is_some}};
ghost use Rattle.mcbp_frame.specs.declared.frame.Frame.{Frame as FrameData};
ghost use Rattle.mcbp_frame.specs.declared.frame.TheConstants.{MAX_BODY_LEN, RESPONSE};
ghost use Rattle.mcbp_frame.specs.Frames.{first_frame, body_size, frame_len};
ghost use Rattle.mcbp_frame.specs.Spelling.{spelling, Fits};
ghost use Rattle.mcbp_frame.specs.Streams.{AreBytes};
ghost use Rattle.mcbp_dcp.specs.declared.row.DcpRow.{DcpRow as RowData};
ghost use Rattle.mcbp_dcp.specs.declared.message.DcpMsg.{DcpMsg as MsgData};
ghost use Rattle.mcbp_dcp.specs.declared.message.DcpMsg.TheVariants as msg;
ghost use Rattle.mcbp_dcp.specs.declared.message.Deletion.{Deletion as RemovalData};
ghost use Rattle.mcbp_dcp.specs.declared.message.Mutation.{Mutation as PutData};
ghost use Rattle.mcbp_dcp.specs.declared.message.Prepare.{Prepare as PreparedData};
ghost use Rattle.mcbp_dcp.specs.declared.message.Resolution.{Resolution as ResolvedData};
ghost use Rattle.mcbp_dcp.specs.declared.message.StreamVerdict.{StreamVerdict as ToldData};
ghost use Rattle.mcbp_dcp.specs.declared.message.StreamVerdict.TheVariants as told_as;
ghost use Rattle.vb_types.specs.declared.stream.StreamAsk.{StreamAsk as AskData};
ghost use Rattle.vb_types.specs.declared.role.LogEntry.{LogEntry as EntryData};
ghost use Rattle.vb_types.specs.declared.role.Role.{Role as RoleData};
ghost use Rattle.vb_types.specs.declared.role.Role.TheVariants as role;
ghost use Rattle.mcbp_dcp.specs.declared.message.DcpFault.TheVariants.{WrongExtras, WrongKey, WrongValue};
ghost use Rattle.mcbp_dcp.specs.declared.shape.TheConstants.{MAX_NAME, ENTRY_LEN, SUCCESS, ROLLBACK};
ghost use Rattle.mcbp_dcp.specs.Rows.{dcp_opcodes, frame_row};
ghost use Rattle.mcbp_dcp.specs.States.{role_byte, is_role, role_in};
ghost use Rattle.mcbp_dcp.specs.Shapes.{extras_fit, key_fits, verdict_fits, log_fits, value_fits};
ghost use Rattle.mcbp_dcp.specs.Messages.{read_of};
ghost use Rattle.mcbp_dcp.specs.DcpFrames.{dcp_frame, IsSpelled};
ghost use Rattle.mcbp_dcp.specs.DcpLaws.{InRange, Carries, RefusesExtras, RefusesLengths, RefusesValues, RefusesValuesOfRemovals, AcknowledgesBare, RefusesBodies, RefusesAnswers, RefusesValuesOfAnswers, RefusesOtherLogs, RefusesOtherRoles, NamesRoleAlone, HasNoAnswer, frame_read, dcp_len};
ghost use Rattle.mcbp_dcp.specs.DurableRows.{IsReadAs, IsWrittenAs, prepare_row, prepare_bytes, no_times, some_times, no_cas, some_cas, some_value, resolution_row, resolution_bytes, acknowledged_bytes};
ghost use Rattle.mcbp_dcp.specs.MessageRows.{IsAnsweredAs, open_row, open_bytes, control_row, control_bytes, request_row, request_bytes, end_bytes, marker_row, marker_bytes, mutation_row, mutation_bytes, deletion_row, deletion_bytes, bare_bytes, buffer_bytes, state_bytes, answer_head, some_log, log_told_bytes, log_answer_bytes, point_told_bytes, refused_told_bytes, four_bytes, no_four};

/// A message that is written is read back, whatever follows it.
pub fn dcp_reads_back()
    ensures message { (m : MsgData) (opaque v : ℕ) → IsSpelled m → InRange m
        → read_of (dcp_frame m opaque v) ≡ Some (Ok m) }
    ensures frame { (m : MsgData) (opaque v : ℕ) (rest : List ℕ) → IsSpelled m → InRange m → opaque < 2 ^ 32
        → v < 2 ^ 16 → body_size (dcp_frame m opaque v) ≤ MAX_BODY_LEN
        → first_frame (spelling (dcp_frame m opaque v) ++ rest) ≡ Some (Ok (dcp_frame m opaque v)) }
{}

/// A frame that is read is the one frame of its message, but for what its row does not use; and
/// `write_dcp` writes that message.
pub fn dcp_one_spelling()
    ensures frame { (f : FrameData) (row : RowData) (m : MsgData) → frame_row f ≡ Some row
        → AreBytes f.extras → AreBytes f.value → read_of f ≡ Some (Ok m)
        → dcp_frame m f.opaque f.vb_or_status ≡ frame_read row f }
    ensures spelled { (f : FrameData) (m : MsgData) → Fits f → AreBytes f.value
        → read_of f ≡ Some (Ok m) → IsSpelled m }
{}

/// A frame that is no answer is read exactly where DCP has a message with its opcode.
pub fn messages_have_rows()
    ensures { (f : FrameData) → f.magic ≢ RESPONSE → is_some (read_of f) ≡ list_any (λ o. o == f.opcode) dcp_opcodes }
{}

/// Each fault is given exactly where its part is the first that is not the row's. A mutation's extras
/// are 31 bytes with 0 in those at 28, and a deletion's 18 with 0 in those at 16: no metadata follow.
pub fn dcp_faults()
    ensures extras { (f : FrameData) (row : RowData) → frame_row f ≡ Some row
        → ((read_of f ≡ Some (Err WrongExtras)) ↔ IsFalse (extras_fit row f)) }
    ensures key { (f : FrameData) (row : RowData) → frame_row f ≡ Some row
        → ((read_of f ≡ Some (Err WrongKey)) ↔ (IsTrue (extras_fit row f) × IsFalse (key_fits row f))) }
    ensures value { (f : FrameData) (row : RowData) → frame_row f ≡ Some row
        → ((read_of f ≡ Some (Err WrongValue)) ↔ (IsTrue (extras_fit row f) × IsTrue (key_fits row f) × IsFalse (value_fits row f))) }
    ensures mutation { RefusesExtras 0x57 31 28 }
    ensures deletion { RefusesExtras 0x58 18 16 }
{}

/// What of the messages of durable writes is refused, in numbers: other extras than 31, 16, 16 and 8
/// bytes; a value, but that of a prepare, which is refused where the prepare says that it is of a
/// removal; and the key of an acknowledgement.
pub fn durable_faults()
    ensures prepare { RefusesLengths 0x60 31 }
    ensures commit { RefusesLengths 0x62 16 }
    ensures abort { RefusesLengths 0x63 16 }
    ensures acknowledged { RefusesLengths 0x61 8 }
    ensures removal { RefusesValuesOfRemovals }
    ensures committed { RefusesValues 0x62 16 }
    ensures aborted { RefusesValues 0x63 16 }
    ensures bare { AcknowledgesBare }
{}

/// What of the messages beside handshake and streams is refused, in numbers: extras, but the 4 bytes of an
/// acknowledgement of bytes, which has no answer, and a role's byte of 1 to 4; a key; and a value, but the
/// log of an answer that is Success, 16 bytes an entry.
pub fn connection_faults()
    ensures close { RefusesLengths 0x52 0 × RefusesBodies 0x52 0 }
    ensures ask { RefusesLengths 0x54 0 × RefusesBodies 0x54 0 }
    ensures noop { RefusesLengths 0x5c 0 × RefusesBodies 0x5c 0 }
    ensures acknowledged { RefusesLengths 0x5d 4 × RefusesBodies 0x5d 4 }
    ensures state { RefusesOtherRoles × NamesRoleAlone }
    ensures closed { RefusesAnswers 0x52 × RefusesValuesOfAnswers 0x52 }
    ensures nooped { RefusesAnswers 0x5c × RefusesValuesOfAnswers 0x5c }
    ensures log { RefusesAnswers 0x54 × RefusesOtherLogs }
    ensures stated { RefusesAnswers 0x5b × RefusesValuesOfAnswers 0x5b }
    ensures unanswered { HasNoAnswer 0x5d }
{}

/// The messages of durable writes, byte by byte, and what of them is not read: lock time and nru of a
/// prepare, datatype and CAS of the others.
pub fn durable_messages_in_bytes()
    ensures prepare { IsWrittenAs (prepare_row 0x09 0x0a some_value) (prepare_bytes 0x27 no_times 0x09 0x0a some_value) }
    ensures removal { IsWrittenAs (prepare_row 1 3 []) (prepare_bytes 0x22 no_times 1 3 []) }
    ensures commit { IsWrittenAs (msg.Commit resolution_row) (resolution_bytes 0x62 0 no_cas) }
    ensures abort { IsWrittenAs (msg.Abort resolution_row) (resolution_bytes 0x63 0 no_cas) }
    ensures acknowledged { IsWrittenAs (msg.SeqnoAcknowledged 0x1112131415161718) acknowledged_bytes }
    ensures times { IsReadAs (prepare_bytes 0x27 some_times 0x09 0x0a some_value) (prepare_row 0x09 0x0a some_value) }
    ensures heads { IsReadAs (resolution_bytes 0x62 1 some_cas) (msg.Commit resolution_row)
        × IsReadAs (resolution_bytes 0x63 1 some_cas) (msg.Abort resolution_row) }
{}

/// The handshake, a request for a stream, its marker, its changes and its end, and the answers, byte by
/// byte, no two numbers of a message alike; and some of what is not read: a request's reserved field,
/// lock time and nru of a mutation, and a deletion's datatype.
pub fn messages_in_bytes()
    ensures opening { IsWrittenAs open_row open_bytes }
    ensures control { IsWrittenAs control_row control_bytes }
    ensures request { IsWrittenAs request_row (request_bytes no_four) }
    ensures stream_end { IsWrittenAs (msg.StreamEnd 0x01020304) (end_bytes four_bytes) }
    ensures marker { IsWrittenAs marker_row (marker_bytes four_bytes) }
    ensures mutation { IsWrittenAs mutation_row (mutation_bytes no_four 0) }
    ensures deletion { IsWrittenAs deletion_row (deletion_bytes 0) }
    ensures opened { IsAnsweredAs (msg.OpenAnswer 0x0304) (answer_head 0x50 0x03 0x04 0x00) }
    ensures controlled { IsAnsweredAs (msg.ControlAnswer 0x0304) (answer_head 0x5e 0x03 0x04 0x00) }
    ensures granted { IsAnsweredAs (msg.StreamAnswer (told_as.Go some_log)) log_told_bytes }
    ensures sent_back { IsAnsweredAs (msg.StreamAnswer (told_as.Roll 0x3132333435363738)) point_told_bytes }
    ensures refused { IsAnsweredAs (msg.StreamAnswer (told_as.Refused 0x0304)) refused_told_bytes }
    ensures reserved { IsReadAs (request_bytes four_bytes) request_row }
    ensures times { IsReadAs (mutation_bytes four_bytes 0x61) mutation_row }
    ensures typed { IsReadAs (deletion_bytes 1) deletion_row }
{}

/// The messages beside handshake and streams, byte by byte: the request to close a stream, that for a log,
/// the question whether the other side is there, how many bytes were taken, and the role that a vBucket is
/// to take, each of the four; and the answers to all but the bytes. Datatype and CAS are not read.
pub fn connection_messages_in_bytes()
    ensures close { IsWrittenAs msg.CloseStream (bare_bytes 0x52 0 no_cas) }
    ensures ask { IsWrittenAs msg.GetFailoverLog (bare_bytes 0x54 0 no_cas) }
    ensures noop { IsWrittenAs msg.Noop (bare_bytes 0x5c 0 no_cas) }
    ensures acknowledged { IsWrittenAs (msg.BufferAcknowledgement 0x01020304) (buffer_bytes 0 no_cas) }
    ensures active { IsWrittenAs (msg.SetVbucketState role.Active) (state_bytes 0 no_cas 1) }
    ensures replica { IsWrittenAs (msg.SetVbucketState role.Replica) (state_bytes 0 no_cas 2) }
    ensures pending { IsWrittenAs (msg.SetVbucketState role.Pending) (state_bytes 0 no_cas 3) }
    ensures dead { IsWrittenAs (msg.SetVbucketState role.Dead) (state_bytes 0 no_cas 4) }
    ensures closed { IsAnsweredAs (msg.CloseAnswer 0x0304) (answer_head 0x52 0x03 0x04 0x00) }
    ensures nooped { IsAnsweredAs (msg.NoopAnswer 0x0304) (answer_head 0x5c 0x03 0x04 0x00) }
    ensures log { IsAnsweredAs (msg.LogAnswer 0 some_log) log_answer_bytes }
    ensures refused { IsAnsweredAs (msg.LogAnswer 0x0304 []) (answer_head 0x54 0x03 0x04 0x00) }
    ensures stated { IsAnsweredAs (msg.StateAnswer 0x0304) (answer_head 0x5b 0x03 0x04 0x00) }
    ensures heads { IsReadAs (bare_bytes 0x52 1 some_cas) msg.CloseStream × IsReadAs (bare_bytes 0x54 1 some_cas) msg.GetFailoverLog
        × IsReadAs (bare_bytes 0x5c 1 some_cas) msg.Noop × IsReadAs (buffer_bytes 1 some_cas) (msg.BufferAcknowledgement 0x01020304)
        × IsReadAs (state_bytes 1 some_cas 3) (msg.SetVbucketState role.Pending) }
{}

/// How long a message is as bytes, whatever its opaque and vBucket.
pub fn dcp_lengths()
    ensures { (m : MsgData) (opaque v : ℕ) → frame_len (dcp_frame m opaque v) ≡ dcp_len m }
{}

/// All opcodes as numbers; and those of each message and of its answer, with the length of extras.
#[tactic(auto, unfolding(crate::specs::DcpFrames::dcp_frame))]
pub fn dcp_opcodes_in_numbers()
    ensures all { dcp_opcodes ≡ 0x50 ∷ 0x52 ∷ 0x53 ∷ 0x54 ∷ 0x55 ∷ 0x56 ∷ 0x57 ∷ 0x58 ∷ 0x5b ∷ 0x5c
        ∷ 0x5d ∷ 0x5e ∷ 0x60 ∷ 0x61 ∷ 0x62 ∷ 0x63 ∷ [] }
    ensures open { (n flags opaque v : ℕ) (name : List ℕ) → Carries (dcp_frame (msg.Open n flags name) opaque v) 0x50 8 }
    ensures control { (opaque v : ℕ) (key value : List ℕ) → Carries (dcp_frame (msg.Control key value) opaque v) 0x5e 0 }
    ensures request { (ask : AskData) (opaque v : ℕ) → Carries (dcp_frame (msg.StreamRequest ask) opaque v) 0x53 48 }
    ensures stream_end { (reason opaque v : ℕ) → Carries (dcp_frame (msg.StreamEnd reason) opaque v) 0x55 4 }
    ensures marker { (start end flags opaque v : ℕ) → Carries (dcp_frame (msg.SnapshotMarker start end flags) opaque v) 0x56 20 }
    ensures mutation { (change : PutData) (opaque v : ℕ) → Carries (dcp_frame (msg.Mutation change) opaque v) 0x57 31 }
    ensures deletion { (change : RemovalData) (opaque v : ℕ) → Carries (dcp_frame (msg.Deletion change) opaque v) 0x58 18 }
    ensures prepare { (change : PreparedData) (opaque v : ℕ) → Carries (dcp_frame (msg.Prepare change) opaque v) 0x60 31 }
    ensures commit { (change : ResolvedData) (opaque v : ℕ) → Carries (dcp_frame (msg.Commit change) opaque v) 0x62 16 }
    ensures abort { (change : ResolvedData) (opaque v : ℕ) → Carries (dcp_frame (msg.Abort change) opaque v) 0x63 16 }
    ensures acknowledged { (seq opaque v : ℕ) → Carries (dcp_frame (msg.SeqnoAcknowledged seq) opaque v) 0x61 8 }
    ensures close { (opaque v : ℕ) → Carries (dcp_frame msg.CloseStream opaque v) 0x52 0 }
    ensures ask { (opaque v : ℕ) → Carries (dcp_frame msg.GetFailoverLog opaque v) 0x54 0 }
    ensures noop { (opaque v : ℕ) → Carries (dcp_frame msg.Noop opaque v) 0x5c 0 }
    ensures buffer { (bytes opaque v : ℕ) → Carries (dcp_frame (msg.BufferAcknowledgement bytes) opaque v) 0x5d 4 }
    ensures state { (to : RoleData) (opaque v : ℕ) → Carries (dcp_frame (msg.SetVbucketState to) opaque v) 0x5b 1 }
    ensures opened { (status opaque v : ℕ) → Carries (dcp_frame (msg.OpenAnswer status) opaque v) 0x50 0 }
    ensures controlled { (status opaque v : ℕ) → Carries (dcp_frame (msg.ControlAnswer status) opaque v) 0x5e 0 }
    ensures told { (told : ToldData) (opaque v : ℕ) → Carries (dcp_frame (msg.StreamAnswer told) opaque v) 0x53 0 }
    ensures closed { (status opaque v : ℕ) → Carries (dcp_frame (msg.CloseAnswer status) opaque v) 0x52 0 }
    ensures nooped { (status opaque v : ℕ) → Carries (dcp_frame (msg.NoopAnswer status) opaque v) 0x5c 0 }
    ensures log { (status opaque v : ℕ) (log : List EntryData) → Carries (dcp_frame (msg.LogAnswer status log) opaque v) 0x54 0 }
    ensures stated { (status opaque v : ℕ) → Carries (dcp_frame (msg.StateAnswer status) opaque v) 0x5b 0 }
{}

/// The numbers that the protocol fixes for these messages.
pub fn dcp_numbers()
    ensures name { MAX_NAME ≡ 250 }
    ensures entry { ENTRY_LEN ≡ 16 }
    ensures statuses { (SUCCESS ≡ 0) × (ROLLBACK ≡ 35) }
    ensures roles { (role_byte role.Active ≡ 1) × (role_byte role.Replica ≡ 2) × (role_byte role.Pending ≡ 3) × (role_byte role.Dead ≡ 4) }
    ensures bytes { (role_in 1 ≡ role.Active) × (role_in 2 ≡ role.Replica) × (role_in 3 ≡ role.Pending) × (role_in 4 ≡ role.Dead) }
    ensures others { (is_role 0 ≡ false) × (is_role 5 ≡ false) × (is_role 255 ≡ false) }
{}

/// The name in an OPEN has 1 to 250 bytes.
pub fn names_have_lengths()
    ensures { (number flags : ℕ) (name : List ℕ) → IsSpelled (msg.Open number flags name) ↔ ((1 ≤ length name) × (length name ≤ 250)) }
{}

/// Which messages have a spelling: a CONTROL and a mutation of any key and value, a deletion, a commit and
/// an abort of any key, that fit their length fields; a log that fits its own, and none where it is
/// refused; and each other message without a key but the answer to a request for a stream.
pub fn messages_have_room()
    ensures control { (key value : List ℕ) → IsSpelled (msg.Control key value) ↔ ((length key < 65536) × (length key + length value < 4294967296)) }
    ensures mutation { (change : PutData) → IsSpelled (msg.Mutation change) ↔ ((length change.key < 65536) × (31 + length change.key + length change.value < 4294967296)) }
    ensures deletion { (change : RemovalData) → IsSpelled (msg.Deletion change) ↔ (length change.key < 65536) }
    ensures ended { (change : ResolvedData) → (IsSpelled (msg.Commit change) ↔ (length change.key < 65536)) × (IsSpelled (msg.Abort change) ↔ (length change.key < 65536)) }
    ensures request { (ask : AskData) → IsSpelled (msg.StreamRequest ask) }
    ensures marker { (start end flags : ℕ) → IsSpelled (msg.SnapshotMarker start end flags) }
    ensures others { (n : ℕ) → IsSpelled (msg.StreamEnd n) × IsSpelled (msg.SeqnoAcknowledged n) × IsSpelled (msg.OpenAnswer n) × IsSpelled (msg.ControlAnswer n) }
    ensures connection { (n : ℕ) → IsSpelled msg.CloseStream × IsSpelled msg.GetFailoverLog × IsSpelled msg.Noop × IsSpelled (msg.BufferAcknowledgement n) × IsSpelled (msg.CloseAnswer n) × IsSpelled (msg.NoopAnswer n) }
    ensures state { (to : RoleData) (n : ℕ) → IsSpelled (msg.SetVbucketState to) × IsSpelled (msg.StateAnswer n) }
    ensures log { (log : List EntryData) → IsSpelled (msg.LogAnswer 0 log) ↔ (16 * length log < 4294967296) }
    ensures refused { (status : ℕ) (log : List EntryData) → status ≢ 0 → IsSpelled (msg.LogAnswer status log) ↔ (log ≡ []) }
{}

/// How many bytes stand in an answer to a request for a stream: whole entries of 16 where it is granted,
/// the 8 of a point where the consumer is sent back, and none where it is refused; and in one to a request
/// for a log: whole entries of 16 where it is granted, and else none.
pub fn answers_fit()
    ensures granted { (verdict_fits 0 0 ≡ true) × (verdict_fits 0 16 ≡ true) × (verdict_fits 0 400 ≡ true) }
    ensures cut { (verdict_fits 0 8 ≡ false) × (verdict_fits 0 17 ≡ false) × (verdict_fits 0 31 ≡ false) }
    ensures sent_back { (verdict_fits 35 8 ≡ true) × (verdict_fits 35 0 ≡ false) × (verdict_fits 35 16 ≡ false) }
    ensures refused { (verdict_fits 7 0 ≡ true) × (verdict_fits 4 0 ≡ true) × (verdict_fits 7 8 ≡ false) × (verdict_fits 34 16 ≡ false) }
    ensures log { (log_fits 0 0 ≡ true) × (log_fits 0 16 ≡ true) × (log_fits 0 400 ≡ true) × (log_fits 0 8 ≡ false) × (log_fits 0 31 ≡ false) }
    ensures no_log { (log_fits 7 0 ≡ true) × (log_fits 35 0 ≡ true) × (log_fits 35 8 ≡ false) × (log_fits 7 16 ≡ false) }
{}

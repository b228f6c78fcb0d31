//! Laws of a consumer. Each is a function with no work to do, and its clauses are the law.
ghost use Rattle.std.specs.Prelude.{◌≡◌, ◌≢◌, ◌↔◌, ◌⊎◌, ◌+◌, ◌++◌, ◌^◌, ◌<◌, ◌≤◌, ◌∷◌, ℕ, List, true, false, [], None, Some, Ok, IsTrue, IsFalse, length, map, min};
ghost use Rattle.{std.specs.List.{All, concat}, mcbp_dcp.specs.DcpFrames.{dcp_frame}, mcbp_frame.specs.Spelling.{spelling}};
ghost use Rattle.{dcp_consumer.specs.PassiveStreams.{passive_of}, dcp_consumer.specs.Receiving.{BytesCome, IsPrepared, IsRemoved, IsResolved, IsStored, IsUnfit, committed, durable_call, durable_doc, typed_bytes, typed_call}};
ghost use Rattle.{dcp_consumer.specs.declared.passive_stream.Passive.TheVariants.{Call, End, Protocol as Strange}, mcbp_dcp.specs.DurableRows.{no_cas, no_times, prepare_bytes, resolution_bytes, some_cas, some_value}};
ghost use Rattle.mcbp_dcp.specs.declared.message.DcpMsg.{DcpMsg as MessageData};
ghost use Rattle.{mcbp_dcp.specs.declared.message.Deletion.{Deletion as RemovalData}, mcbp_dcp.specs.declared.message.Mutation.{Mutation as PutData}};
ghost use Rattle.{mcbp_dcp.specs.declared.message.Prepare.{Prepare as PreparedData}, mcbp_dcp.specs.declared.message.Resolution.{Resolution as ResolvedData}};
ghost use Rattle.mcbp_dcp.specs.declared.message.DcpMsg.TheVariants as msg;
ghost use Rattle.mcbp_dcp.specs.MessageRows.{answer_head, bare_bytes, deletion_bytes, end_bytes, four_bytes, marker_bytes, mutation_bytes, no_four, state_bytes};
ghost use Rattle.{vb_calls.specs.declared.calls.VbCall.TheVariants.{Marker, Receive}, vb_types.specs.Limits.{IsKey, IsValue}};
ghost use Rattle.{vb_types.specs.declared.change.Act.TheVariants.{Abort, Prepare, Remove, Set}, vb_types.specs.declared.change.Change.{Change as ChangeData}};
ghost use Rattle.vb_types.specs.declared.change.Level.TheVariants.{MajorityPersistActive, PersistMajority};
ghost use Rattle.dcp_consumer.specs.Conduct.{Awaits, awaited, answer_numbers, IsNext, Ends, IsRequest, Acknowledges, IsAcknowledgement, HasAcknowledged, LeavesAcknowledged, acknowledgement_bytes};
ghost use Rattle.dcp_consumer.specs.Counting.{is_counted, counted_bytes, bytes_acknowledged, Counts, CountsAsMessage, IsBufferAcknowledgement, buffer_acknowledgement_bytes};
ghost use Rattle.{mcbp_dcp.specs.Messages.{read_of}, dcp_consumer.specs.States.{state_answered, BytesAreObeyed, ComesTo, EndsAt, IsNextOf, IsStateAnswer, Obeys}, takeover.specs.declared.take_over.TakeStep.{TakeStep as TakeData}, takeover.specs.declared.take_over.TakeStep.TheVariants.{Pend, Own}};
ghost use Rattle.dcp_consumer.specs.Noops.{noop_answered, IsNoop, IsNoopAnswer, BytesAreAnswered};
ghost use Rattle.dcp_consumer.specs.Dialing.{member_name, first_requests, flagged, numbered, requests, ask_row, dialed_row, open_bytes, buffer_bytes, sync_bytes, name_bytes, request_bytes};
ghost use Rattle.dcp_consumer.specs.Machine.{PlainConsumer, dialed_consumer, over_why, consumer_step, IsDue, granted, again, ended_for, is_streaming, may_acknowledge, acknowledged};
ghost use Rattle.{dcp_consumer.specs.declared.handshake.ConsumerStep.{ConsumerStep as StepData}, dcp_consumer.specs.declared.handshake.ConsumerStep.TheVariants.{Dropped, Noop, Passive, State as StateStep}};
ghost use Rattle.{dcp_consumer.specs.declared.handshake.Dialed.{Dialed as DialedData}, dcp_consumer.specs.declared.handshake.Handshake.{Handshake as HandshakeData}};
ghost use Rattle.{dcp_consumer.specs.declared.handshake.Handshake.TheVariants.{Opening, Buffering, SyncWrites, Naming, Asking, Streaming, Over}, mcbp_frame.specs.declared.frame.Frame.{Frame as FrameData}};
ghost use Rattle.{vb_events.specs.declared.event.EndReason.{EndReason as ReasonData}, vb_events.specs.declared.event.EndReason.TheVariants.{Done, Protocol, State}};
ghost use Rattle.{vb_types.specs.declared.role.Role.{Role as RoleData}, vb_types.specs.declared.stream.StreamAsk.{StreamAsk as AskData}};

/// What a consumer writes when it dials, byte by byte: it opens under its node's name as a member,
/// asks for the buffer where there is one, asks for durable writes, says under which name it
/// acknowledges, and requests the stream, with the opaques 1 to 4, or 1 to 5 with a buffer. Only the
/// request names the vBucket, and it has the flags 1 where the link takes the vBucket over, and else 0.
pub fn dials_in_bytes()
    ensures plain { (link : ℕ) → requests (dialed_row link 0 false) ask_row ≡ open_bytes ++ sync_bytes 2 ++ name_bytes 3 ++ request_bytes 0 4 }
    ensures buffered { (link : ℕ) → requests (dialed_row link 0x01020304 false) ask_row ≡ open_bytes ++ buffer_bytes ++ sync_bytes 3 ++ name_bytes 4 ++ request_bytes 0 5 }
    ensures takeover { (link : ℕ) → requests (dialed_row link 0 true) ask_row ≡ open_bytes ++ sync_bytes 2 ++ name_bytes 3 ++ request_bytes 1 4 }
{}

/// Which frame comes to which step, in both directions.
pub fn frames_come_to_steps()
    ensures { (c : PlainConsumer) (f : FrameData) (s : StepData) → ((consumer_step c f).1 ≡ s) ↔ ComesTo c f s }
{}

/// A frame moves the handshake one on exactly where it is the awaited answer with Success, and no
/// frame moves it to another place but its end. The stream is granted to a consumer that asks for it,
/// when its vBucket took the log over.
pub fn handshakes_move_on()
    ensures next { (c : PlainConsumer) (f : FrameData) (next : HandshakeData) → next ≢ c.handshake → over_why next ≡ None
        → ((consumer_step c f).0.handshake ≡ next) ↔ (IsNext c.dialed.buffer c.handshake next × Awaits c.dialed.buffer c.handshake c.asked f × (f.vb_or_status ≡ 0)) }
    ensures due { (c : PlainConsumer) (f : FrameData) → IsDue (consumer_step c f).1 (consumer_step c f).0 }
    ensures granted { (c : PlainConsumer) → c.handshake ≡ Asking → granted c ≡ record c { handshake = Streaming } }
    ensures others { (c : PlainConsumer) → c.handshake ≢ Asking → granted c ≡ c }
{}

/// A frame ends a link exactly by these steps, and never for `cut`. Once the link is over, nothing is
/// taken any more.
pub fn links_end()
    ensures frame { (c : PlainConsumer) (f : FrameData) (why : ReasonData) → over_why c.handshake ≡ None
        → ((consumer_step c f).0.handshake ≡ Over why) ↔ Ends why (consumer_step c f).1 }
    ensures over { (c : PlainConsumer) (f : FrameData) → over_why c.handshake ≢ None → consumer_step c f ≡ (c, Dropped) }
{}

/// An answer is passed over, and changes nothing, exactly where it has another opaque or another
/// opcode than the one that is waited for.
pub fn answers_are_awaited()
    ensures { (c : PlainConsumer) (f : FrameData) → f.magic ≡ 0x81
        → (consumer_step c f ≡ (c, Dropped)) ↔ (awaited c.dialed.buffer c.handshake c.asked ≢ Some (f.opaque, f.opcode)) }
{}

/// Each answer that a handshake waits for is the one to its own request, by opaque and opcode, in the
/// order in which the requests go out; and the first request for a stream comes right behind them.
pub fn requests_are_answered()
    ensures plain { (node asked : ℕ) → map answer_numbers (numbered 1 (first_requests node 0)) ≡ map (λ h. awaited 0 h asked) (Opening ∷ SyncWrites ∷ Naming ∷ []) }
    ensures buffered { (node buffer asked : ℕ) → buffer ≢ 0
        → map answer_numbers (numbered 1 (first_requests node buffer)) ≡ map (λ h. awaited buffer h asked) (Opening ∷ Buffering ∷ SyncWrites ∷ Naming ∷ []) }
    ensures stream { (dialed : DialedData) → awaited dialed.buffer Asking (dialed_consumer dialed).asked ≡ Some (1 + length (first_requests dialed.node dialed.buffer), 0x53) }
{}

/// Which frames end a link for which reason, in both directions.
pub fn reasons_are_told()
    ensures { (c : PlainConsumer) (f : FrameData) (why : ReasonData) → over_why c.handshake ≡ None
        → ((consumer_step c f).0.handshake ≡ Over why) ↔ EndsAt why c f }
{}

/// A prepare, a commit and an abort are taken in as the changes that they are, and no other message of
/// theirs is: `protocol` exactly where key, value, level or flag is none that a change can have.
pub fn durable_writes_are_taken()
    ensures prepare { (p : PreparedData) (c : ChangeData) → (passive_of (msg.Prepare p) ≡ Call (Receive c)) ↔ IsPrepared p c }
    ensures commit { (r : ResolvedData) (c : ChangeData) → (passive_of (msg.Commit r) ≡ Call (Receive c)) ↔ IsResolved r (committed r.prepared) c }
    ensures abort { (r : ResolvedData) (c : ChangeData) → (passive_of (msg.Abort r) ≡ Call (Receive c)) ↔ IsResolved r (Abort r.prepared) c }
    ensures unfit { (p : PreparedData) → (passive_of (msg.Prepare p) ≡ Strange) ↔ IsUnfit p }
    ensures keyless { (r : ResolvedData) → ((passive_of (msg.Commit r) ≡ Strange) ↔ (IsKey r.key → ⊥)) × ((passive_of (msg.Abort r) ≡ Strange) ↔ (IsKey r.key → ⊥)) }
    ensures acknowledged { (seq : ℕ) → passive_of (msg.SeqnoAcknowledged seq) ≡ Strange }
{}

/// A MUTATION and a DELETION are taken in as the changes that they are, with all bits of each field, and
/// as no other: `protocol` exactly where key or value is none that a change can have. A state makes no
/// such call.
pub fn changes_are_taken()
    ensures stored { (m : PutData) (c : ChangeData) → (passive_of (msg.Mutation m) ≡ Call (Receive c)) ↔ IsStored m c }
    ensures removed { (d : RemovalData) (c : ChangeData) → (passive_of (msg.Deletion d) ≡ Call (Receive c)) ↔ IsRemoved d c }
    ensures unfit { (m : PutData) → (passive_of (msg.Mutation m) ≡ Strange) ↔ ((IsKey m.key → ⊥) ⊎ (IsValue m.value → ⊥)) }
    ensures keyless { (d : RemovalData) → (passive_of (msg.Deletion d) ≡ Strange) ↔ (IsKey d.key → ⊥) }
    ensures state { (to : RoleData) → passive_of (msg.SetVbucketState to) ≡ Strange }
    ensures typed { BytesCome (typed_bytes 5) (typed_call 5) × BytesCome (typed_bytes 255) (typed_call 255) × BytesCome (typed_bytes 0) (typed_call 0) }
{}

/// What the messages of durable writes come to, byte by byte.
pub fn durable_writes_from_bytes()
    ensures prepare { BytesCome (prepare_bytes 0x27 no_times 0 2 some_value) (durable_call 0x1112131415161718 (Prepare MajorityPersistActive (durable_doc some_value) false)) }
    ensures removal { BytesCome (prepare_bytes 0x22 no_times 1 3 []) (durable_call 0x1112131415161718 (Prepare PersistMajority (durable_doc []) true)) }
    ensures commit { BytesCome (resolution_bytes 0x62 0 no_cas) (durable_call 0x2122232425262728 (committed 0x1112131415161718)) }
    ensures abort { BytesCome (resolution_bytes 0x63 0 no_cas) (durable_call 0x2122232425262728 (Abort 0x1112131415161718)) }
    ensures level { BytesCome (prepare_bytes 0x27 no_times 0 0 some_value) Strange × BytesCome (prepare_bytes 0x27 no_times 0 4 some_value) Strange }
    ensures flag { BytesCome (prepare_bytes 0x22 no_times 2 1 []) Strange × BytesCome (prepare_bytes 0x27 no_times 1 1 some_value) Strange }
{}

/// What the messages of sets, removals, snapshots and ends come to, byte by byte: no two of their numbers
/// are alike, a marker's flags say nothing to the vBucket, and an end for another reason than 0 is one by
/// a change of state.
pub fn changes_from_bytes()
    ensures stored { BytesCome (mutation_bytes no_four 0) (durable_call 0x1112131415161718 (Set (durable_doc some_value))) }
    ensures removed { BytesCome (deletion_bytes 0) (durable_call 0x1112131415161718 (Remove 0x3132333435363738 0x2122232425262728)) }
    ensures marker { BytesCome (marker_bytes four_bytes) (Call (Marker 0x1112131415161718 0x2122232425262728)) }
    ensures over { BytesCome (end_bytes (0x00 ∷ 0x00 ∷ 0x00 ∷ 0x00 ∷ [])) (End Done) }
    ensures changed { BytesCome (end_bytes four_bytes) (End State) }
{}

/// The first request for a stream has the opaque 4, or 5 with a buffer. A consumer asks again only
/// where it went back, each time with the next opaque, and with the flags of its link, 1 for a takeover
/// and else 0; where none is left, its link is over.
pub fn asks_again_once_back()
    ensures first { (dialed : DialedData) → (dialed.buffer ≡ 0 → (dialed_consumer dialed).asked ≡ 4) × (dialed.buffer ≢ 0 → (dialed_consumer dialed).asked ≡ 5) }
    ensures fed { (c : PlainConsumer) (f : FrameData) → (consumer_step c f).0 ≡ record c { handshake = (consumer_step c f).0.handshake; taking = (consumer_step c f).0.taking } }
    ensures granted { (c : PlainConsumer) → granted c ≡ record c { handshake = (granted c).handshake } }
    ensures back { (c : PlainConsumer) (ask : AskData) → c.handshake ≡ Asking → c.asked < 4294967295
        → ((again ask c).0 ≡ record c { asked = c.asked + 1 }) × IsRequest (flagged c.dialed.takeover ask) (c.asked + 1) c.dialed.vb (again ask c).1 }
    ensures flags { (ask : AskData) → (flagged true ask ≡ record ask { flags = 1 }) × (flagged false ask ≡ record ask { flags = 0 }) }
    ensures last { (c : PlainConsumer) (ask : AskData) → c.handshake ≡ Asking → c.asked ≡ 4294967295 → again ask c ≡ (ended_for Protocol c, []) }
    ensures others { (c : PlainConsumer) (ask : AskData) → c.handshake ≢ Asking → again ask c ≡ (c, []) }
{}

/// A consumer has a seqno to acknowledge exactly where its stream is granted and goes on, and the
/// seqno is above the last one that it acknowledged, 0 at first. It writes one message, and then this
/// seqno and those below it are due no more, and nothing else of it has changed. No other call
/// changes what it acknowledged.
pub fn acknowledgements_rise()
    ensures due { (c : PlainConsumer) (seq : ℕ) → IsTrue (may_acknowledge seq c) ↔ Acknowledges c seq }
    ensures streams { (h : HandshakeData) → IsTrue (is_streaming h) ↔ (h ≡ Streaming) }
    ensures first { (dialed : DialedData) → (dialed_consumer dialed).acked ≡ 0 }
    ensures written { (c : PlainConsumer) (seq : ℕ) → seq < 2 ^ 64 → IsAcknowledgement seq c.asked c.dialed.vb (acknowledged seq c).1 }
    ensures past { (c : PlainConsumer) (seq lower : ℕ) → lower ≤ seq → IsFalse (may_acknowledge lower (acknowledged seq c).0) }
    ensures same { (c : PlainConsumer) (seq : ℕ) → HasAcknowledged seq c (acknowledged seq c).0 }
    ensures others { (c : PlainConsumer) → LeavesAcknowledged c }
    ensures bytes { (c : PlainConsumer) → c.dialed.vb ≡ 0x0102 → c.asked ≡ 4 → (acknowledged 0x1112131415161718 c).1 ≡ acknowledgement_bytes }
{}

/// Which frames count for flow control, by their opcodes and by their messages, and no answer does. A
/// frame that counts does so with all its bytes, as they are written: 24 of the header, and the body.
pub fn bytes_are_counted()
    ensures counts { (f : FrameData) → IsTrue (is_counted f) ↔ Counts f }
    ensures messages { (m : MessageData) (opaque vb : ℕ) → IsTrue (is_counted (dcp_frame m opaque vb)) ↔ CountsAsMessage m }
    ensures whole { (f : FrameData) → Counts f → counted_bytes (f ∷ []) ≡ 24 + (length f.framing + length f.extras + length f.key + length f.value) }
    ensures others { (f : FrameData) → (Counts f → ⊥) → counted_bytes (f ∷ []) ≡ 0 }
    ensures written { (fs : List FrameData) → All Counts fs → counted_bytes fs ≡ length (concat (map spelling fs)) }
    ensures both { (fs gs : List FrameData) → counted_bytes (fs ++ gs) ≡ counted_bytes fs + counted_bytes gs }
{}

/// Bytes are acknowledged by one message, which holds their number alone, with the opaque of the stream
/// and for the vBucket 0: 2^32 - 1 at most, and that also where they are more.
pub fn bytes_are_acknowledged()
    ensures written { (c : PlainConsumer) (n : ℕ) → n < 2 ^ 32 → IsBufferAcknowledgement n c.asked (bytes_acknowledged n c) }
    ensures most { (c : PlainConsumer) (n : ℕ) → 4294967295 ≤ n → bytes_acknowledged n c ≡ bytes_acknowledged 4294967295 c }
    ensures once { (c : PlainConsumer) (n : ℕ) → bytes_acknowledged (min n 4294967295) c ≡ bytes_acknowledged n c }
    ensures bytes { (c : PlainConsumer) → c.asked ≡ 5 → bytes_acknowledged 0x11121314 c ≡ buffer_acknowledgement_bytes (0x11 ∷ 0x12 ∷ 0x13 ∷ 0x14 ∷ []) }
    ensures more { (c : PlainConsumer) → c.asked ≡ 5 → bytes_acknowledged 4294967296 c ≡ buffer_acknowledgement_bytes (0xff ∷ 0xff ∷ 0xff ∷ 0xff ∷ []) }
{}

/// A NOOP is a header alone. It is answered whatever is waited for, until the link is over: with
/// Success and its opaque, once, and nothing of the consumer changes; its bytes do not count. What
/// has its opcode and is more than a header ends the link. Datatype, vBucket and CAS are not read.
pub fn noops_are_answered()
    ensures answered { (c : PlainConsumer) (f : FrameData) → over_why c.handshake ≡ None → IsNoop f → consumer_step c f ≡ (c, Noop f.opaque) }
    ensures only { (c : PlainConsumer) (f : FrameData) (opaque : ℕ) → (consumer_step c f).1 ≡ Noop opaque → (over_why c.handshake ≡ None) × IsNoop f × (f.opaque ≡ opaque) }
    ensures strange { (c : PlainConsumer) (f : FrameData) → over_why c.handshake ≡ None → f.magic ≢ 0x81 → f.opcode ≡ 0x5c → (IsNoop f → ⊥)
        → consumer_step c f ≡ (ended_for Protocol c, Passive Strange) }
    ensures uncounted { (f : FrameData) → IsNoop f → counted_bytes (f ∷ []) ≡ 0 }
    ensures written { (opaque : ℕ) → IsNoopAnswer opaque (noop_answered opaque) }
    ensures bytes { BytesAreAnswered (bare_bytes 0x5c 0 no_cas) (answer_head 0x5c 0x00 0x00 0x00) }
    ensures heads { BytesAreAnswered (bare_bytes 0x5c 1 some_cas) (answer_head 0x5c 0x00 0x00 0x00) }
{}

/// A consumer obeys a state exactly where its link takes the vBucket over, its stream was granted and
/// goes on, and the state is in order: pending is the first that the link is told, and active comes
/// right behind it. Nothing else of the consumer changes. Any other state ends the link: replica and
/// dead, active first, a second pending, and each one before the grant or on a link that follows alone.
/// Nothing but a state that it obeys changes how far it is.
pub fn states_are_obeyed()
    ensures obeyed { (c : PlainConsumer) (f : FrameData) (take : TakeData) → Obeys c f take → consumer_step c f ≡ (record c { taking = record { last = Some take } }, StateStep take f.opaque) }
    ensures only { (c : PlainConsumer) (f : FrameData) (take : TakeData) (opaque : ℕ) → (consumer_step c f).1 ≡ StateStep take opaque → Obeys c f take × (f.opaque ≡ opaque) }
    ensures strange { (c : PlainConsumer) (f : FrameData) (to : RoleData) → over_why c.handshake ≡ None → f.magic ≢ 0x81 → read_of f ≡ Some (Ok (msg.SetVbucketState to)) → ((take : TakeData) → Obeys c f take → ⊥)
        → consumer_step c f ≡ (ended_for Protocol c, Passive Strange) }
    ensures stays { (c : PlainConsumer) (f : FrameData) → ((take : TakeData) → Obeys c f take → ⊥) → (consumer_step c f).0.taking ≡ c.taking }
    ensures first { (dialed : DialedData) → IsNextOf (dialed_consumer dialed).taking.last Pend }
    ensures written { (opaque : ℕ) → IsStateAnswer opaque (state_answered opaque) }
{}

/// The states and their answers, byte by byte: the byte 3 has a consumer pend, and the byte 1 own the
/// branch. Each counts with 25 bytes, and is answered with Success and its opaque. Datatype, vBucket
/// and CAS are not read.
pub fn states_from_bytes()
    ensures pending { BytesAreObeyed Pend (state_bytes 0 no_cas 3) (answer_head 0x5b 0x00 0x00 0x00) }
    ensures active { BytesAreObeyed Own (state_bytes 0 no_cas 1) (answer_head 0x5b 0x00 0x00 0x00) }
    ensures heads { BytesAreObeyed Pend (state_bytes 1 some_cas 3) (answer_head 0x5b 0x00 0x00 0x00) }
{}

/// Under which name a node acknowledges: an `n` and its number, with no zero in front.
pub fn names_in_letters()
    ensures few { member_name 3 ≡ 0x6e ∷ 0x33 ∷ [] }
    ensures many { member_name 15 ≡ 0x6e ∷ 0x31 ∷ 0x35 ∷ [] }
{}

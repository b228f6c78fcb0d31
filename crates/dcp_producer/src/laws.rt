//! Laws of a producer. Each is a function with no work to do, and its clauses are the law.
ghost use Rattle.std.specs.Prelude.{◌≡◌, ◌≢◌, ◌<◌, ◌≤◌, ◌⊎◌, ◌++◌, ◌^◌, ℕ, Bool, true, false, List, [], ◌∷◌, Some, Ok, codes, decimal, Err};
ghost use Rattle.dcp_producer.specs.{FirstMarkers.{MarksFirst, MeansFirst}, Frames.{take_answered}};
ghost use Rattle.dcp_producer.specs.Having.{IsOpened, IsStreamOf, NoneOf};
ghost use Rattle.dcp_producer.specs.Handshaking.{Asks, Gets, IsFlag, IsKnown, IsName, IsNoOpen, IsNoRequest, IsOther, Sizes};
ghost use Rattle.dcp_producer.specs.Items.{Asking, EndsBytes, IsNext, MarksBackfills, MarksBytes, MarksSnapshots, PutsBytes, PutsDurables, PutsPlain, durable_doc, durable_row};
ghost use Rattle.dcp_producer.specs.Counting.{IsClients, IsCountable, IsFed, IsMember, IsNoMember, IsUnfed, OneCount};
ghost use Rattle.dcp_producer.specs.Requesting.{AreTaken, IsForIt, IsFree, IsInactive, IsOutside, OneReply, RefusedWith, number_behind};
ghost use Rattle.dcp_producer.specs.Producers.{PlainStream, Served};
ghost use Rattle.{dcp_producer.specs.Serving.{frame_answered, message_answered, named_by, new_stream}, dcp_producer.specs.declared.desk.Handshake.TheVariants.{Fresh, Open as Shaken}};
ghost use Rattle.{dcp_producer.specs.declared.desk.Named.{Named as Name}, dcp_producer.specs.declared.desk.Named.TheVariants.{Member, Nobody, Stranger}};
ghost use Rattle.{mcbp_dcp.specs.Messages.{read_of}, mcbp_dcp.specs.declared.message.DcpFault.{DcpFault as Fault}, mcbp_dcp.specs.declared.message.DcpMsg.{DcpMsg as Message}};
ghost use Rattle.{mcbp_dcp.specs.declared.message.DcpMsg.TheVariants.{Control, Open, SeqnoAcknowledged}, mcbp_frame.specs.declared.frame.Frame.{Frame as FrameData}};
ghost use Rattle.vb_types.specs.declared.stream.Place.{Place as Source};
ghost use Rattle.{mcbp_frame.specs.declared.frame.TheConstants.{RESPONSE}, vb_calls.specs.Plain.{Plain}, vb_calls.specs.Programs.{Done, Made, Told}, vb_calls.specs.States.{States}};
ghost use Rattle.{mcbp_dcp.specs.DurableRows.{no_cas, no_times, prepare_bytes, resolution_bytes, some_value}, vb_types.specs.declared.doc.Doc.{Doc as DocData}};
ghost use Rattle.mcbp_dcp.specs.MessageRows.{deletion_bytes, end_bytes, marker_bytes, mutation_bytes, no_four};
ghost use Rattle.{vb_types.specs.declared.change.Act.TheVariants.{Abort, Commit, Prepare, Remove, Set}, vb_types.specs.declared.change.Change.{Change as ChangeData}};
ghost use Rattle.vb_types.specs.declared.change.Level.TheVariants.{MajorityPersistActive, PersistMajority};
ghost use Rattle.{vb_types.specs.declared.role.Role.TheVariants.{Active}, vb_types.specs.declared.stream.StreamAsk.{StreamAsk as AskData}};
ghost use Rattle.{vb_events.specs.declared.event.StreamName.{StreamName as Stream}, vb_types.specs.declared.stream.Snapshot.{Snapshot as SnapshotData}};
ghost use Rattle.{vb_calls.specs.declared.calls.VbAnswer.TheVariants.{Taken}, vb_calls.specs.declared.calls.VbReply.{VbReply as ReplyData}};

/// The marker of a snapshot has its start and its end, and the flag 1 for one from memory and 2 for one
/// from disk, in the frame as in the line.
pub fn markers_tell_their_source()
    ensures taken { MarksSnapshots }
    ensures read { MarksBackfills }
{}

/// Until a marker of a stream was sent, START is where its request means that its snapshot starts, and
/// commits are sent as sets and removals where that is below the request's start. Behind a marker START
/// is where its vBucket went on, and its changes are sent as it gave them.
pub fn first_markers()
    ensures begins { (id : ℕ) (f : FrameData) (ask : AskData) (sync : Bool) (from : Source) → MeansFirst ask (new_stream id f ask sync from).first }
    ensures sent { (name : Stream) (stream : PlainStream) (snapshot : SnapshotData) (reply : ReplyData) → reply.answer ≡ Taken snapshot
        → MarksFirst name stream snapshot (take_answered name stream (Some reply)) }
{}

/// A set is put as a MUTATION with its document, and a removal as a DELETION with its own CAS and
/// revision.
pub fn changes_are_put()
    ensures { (a : Asking) (c : ChangeData) → IsNext a.stream c → PutsPlain a c }
{}

/// What is put of a set and a removal, of a snapshot from memory and one from disk, and of a stream's
/// end, by a change of role and where all was sent, byte by byte.
pub fn changes_in_bytes()
    ensures stored { PutsBytes (durable_row 0x1112131415161718 (Set (durable_doc some_value))) (mutation_bytes no_four 0) }
    ensures removed { PutsBytes (durable_row 0x1112131415161718 (Remove 0x3132333435363738 0x2122232425262728)) (deletion_bytes 0) }
    ensures marker { (items : List ChangeData)
        → MarksBytes (record { start = 0x1112131415161718; end = 0x2122232425262728; disk = false; items = items }) (marker_bytes (0x00 ∷ 0x00 ∷ 0x00 ∷ 0x01 ∷ [])) }
    ensures disk { (items : List ChangeData)
        → MarksBytes (record { start = 0x1112131415161718; end = 0x2122232425262728; disk = true; items = items }) (marker_bytes (0x00 ∷ 0x00 ∷ 0x00 ∷ 0x02 ∷ [])) }
    ensures over { EndsBytes 2 (end_bytes (0x00 ∷ 0x00 ∷ 0x00 ∷ 0x02 ∷ [])) }
    ensures sent { EndsBytes 0 (end_bytes (0x00 ∷ 0x00 ∷ 0x00 ∷ 0x00 ∷ [])) }
{}

/// A prepare is put as a PREPARE with its document and its level as a number, one of a removal without a
/// value; a commit and an abort are put as COMMIT and ABORT with the seqno of the prepare and their own.
pub fn durable_writes_are_put()
    ensures { (a : Asking) (c : ChangeData) → IsNext a.stream c → PutsDurables a c }
{}

/// What is put of durable writes, byte by byte.
pub fn durable_writes_in_bytes()
    ensures prepare { PutsBytes (durable_row 0x1112131415161718 (Prepare MajorityPersistActive (durable_doc some_value) false))
        (prepare_bytes 0x27 no_times 0 2 some_value) }
    ensures removal { PutsBytes (durable_row 0x1112131415161718 (Prepare PersistMajority (durable_doc []) true))
        (prepare_bytes 0x22 no_times 1 3 []) }
    ensures commit { (doc : DocData) (deleted : Bool)
        → PutsBytes (durable_row 0x2122232425262728 (Commit 0x1112131415161718 doc deleted)) (resolution_bytes 0x62 0 no_cas) }
    ensures abort { PutsBytes (durable_row 0x2122232425262728 (Abort 0x1112131415161718)) (resolution_bytes 0x63 0 no_cas) }
{}

/// A frame is UnknownCommand where DCP has no such opcode, next Einval where it has a datatype, and
/// else it is answered as the message that it is read as. An answer to anything but a state is dropped.
pub fn frames_are_weighed()
    ensures unknown { (f : FrameData) (s : Served) → Asks f false → Gets 0x81 s.end.handshake f s (frame_answered f s) }
    ensures marked { (f : FrameData) (s : Served) → Asks f true → 0 < f.datatype
        → Gets 4 s.end.handshake f s (frame_answered f s) }
    ensures read { (f : FrameData) (m : Message) (s : Served) → Asks f true → f.datatype ≡ 0
        → read_of f ≡ Some (Ok m) → frame_answered f s ≡ message_answered f m s }
    ensures dropped { (f : FrameData) (s : Served) → f.magic ≡ RESPONSE → f.opcode ≢ 0x5b → frame_answered f s ≡ Done s }
{}

/// A frame of DCP of which a producer takes no request is Einval, and so is one whose parts are not its
/// row's.
pub fn others_are_einval()
    ensures opcode { (f : FrameData) (s : Served) → Asks f true → IsOther f.opcode
        → Gets 4 s.end.handshake f s (frame_answered f s) }
    ensures parts { (f : FrameData) (fault : Fault) (s : Served) → Asks f true → read_of f ≡ Some (Err fault)
        → Gets 4 s.end.handshake f s (frame_answered f s) }
{}

/// Before OPEN each request of DCP but OPEN is Einval, whatever it says, and nothing is asked for it; a
/// request for a stream is so by its own answer, which tells the vBucket's log in its line.
pub fn requests_before_open()
    ensures frames { (f : FrameData) (s : Served) → s.end.handshake ≡ Fresh → Asks f true → f.opcode ≢ 0x50 → f.opcode ≢ 0x53
        → Gets 4 Fresh f s (frame_answered f s) }
    ensures messages { (f : FrameData) (m : Message) (s : Served) → s.end.handshake ≡ Fresh → IsNoOpen m → IsNoRequest m
        → Gets 4 Fresh f s (message_answered f m s) }
    ensures streams { (f : FrameData) (ask : AskData) (s : Served) (states : States) → s.end.handshake ≡ Fresh → RefusedWith 4 f ask s states }
{}

/// OPEN is refused with Einval for flags above 1 and on a connection that is open already, next with
/// NotSupported for flags 0; with the flag 1 it opens the connection.
pub fn opens_are_answered()
    ensures einval { (f : FrameData) (number flags : ℕ) (name : List ℕ) (s : Served) → IsOpened s ⊎ (1 < flags)
        → Gets 4 s.end.handshake f s (message_answered f (Open number flags name) s) }
    ensures unsupported { (f : FrameData) (number : ℕ) (name : List ℕ) (s : Served) → s.end.handshake ≡ Fresh
        → Gets 0x83 Fresh f s (message_answered f (Open number 0 name) s) }
    ensures opened { (f : FrameData) (number : ℕ) (name : List ℕ) (s : Served) → s.end.handshake ≡ Fresh
        → Gets 0 (Shaken false Nobody) f s (message_answered f (Open number 1 name) s) }
{}

/// CONTROL of an open connection takes a name of 1 to 250 bytes, the two words of synchronous writes,
/// and for the window the decimal of a number that fits 32 bits. It takes the two words of NOOPs and
/// such a decimal for their interval too, which change nothing. Any other key or value, and any before
/// OPEN, is Einval.
pub fn controls_are_known()
    ensures name { (f : FrameData) (s : Served) (sync : Bool) (name : Name) (value : List ℕ)
        → s.end.handshake ≡ Shaken sync name → IsName value
        → Gets 0 (Shaken sync (named_by value)) f s (message_answered f (Control (codes "consumer_name") value) s) }
    ensures on { (f : FrameData) (s : Served) (sync : Bool) (name : Name) → s.end.handshake ≡ Shaken sync name
        → Gets 0 (Shaken true name) f s (message_answered f (Control (codes "enable_sync_writes") (codes "true")) s) }
    ensures off { (f : FrameData) (s : Served) (sync : Bool) (name : Name) → s.end.handshake ≡ Shaken sync name
        → Gets 0 (Shaken false name) f s (message_answered f (Control (codes "enable_sync_writes") (codes "false")) s) }
    ensures size { (f : FrameData) (s : Served) (sync : Bool) (name : Name) (n : ℕ) → s.end.handshake ≡ Shaken sync name → n < 2 ^ 32
        → Sizes n f s (message_answered f (Control (codes "connection_buffer_size") (decimal n)) s) }
    ensures noop { (f : FrameData) (s : Served) (sync : Bool) (name : Name) (value : List ℕ) → s.end.handshake ≡ Shaken sync name → IsFlag value
        → Gets 0 s.end.handshake f s (message_answered f (Control (codes "enable_noop") value) s) }
    ensures interval { (f : FrameData) (s : Served) (sync : Bool) (name : Name) (n : ℕ) → s.end.handshake ≡ Shaken sync name → n < 4294967296
        → Gets 0 s.end.handshake f s (message_answered f (Control (codes "set_noop_interval") (decimal n)) s) }
    ensures others { (f : FrameData) (s : Served) (key value : List ℕ)
        → (s.end.handshake ≡ Fresh) ⊎ (IsKnown key value → ⊥)
        → Gets 4 s.end.handshake f s (message_answered f (Control key value) s) }
{}

/// SEQNO_ACKNOWLEDGED is refused with Einval before OPEN, next with NotSupported where the connection
/// is a client's or feeds nothing of the vBucket that it names, next with Einval where its consumer gave
/// no member's name, and next with Erange above the seqno that the stream of that vBucket reached. Else,
/// and only then, it is one call, and is answered only where the vBucket is absent or says a status: what
/// is counted is told by lines.
pub fn acknowledgements_are_weighed()
    ensures early { (f : FrameData) (seq : ℕ) (s : Served) → s.end.handshake ≡ Fresh
        → Gets 4 Fresh f s (message_answered f (SeqnoAcknowledged seq) s) }
    ensures unsupported { (f : FrameData) (seq : ℕ) (s : Served) → IsOpened s → IsUnfed f.vb_or_status s
        → Gets 0x83 s.end.handshake f s (message_answered f (SeqnoAcknowledged seq) s) }
    ensures einval { (f : FrameData) (seq : ℕ) (s : Served) (stream : PlainStream) → IsFed f.vb_or_status stream s
        → IsNoMember s.end.handshake → Gets 4 s.end.handshake f s (message_answered f (SeqnoAcknowledged seq) s) }
    ensures erange { (f : FrameData) (seq : ℕ) (s : Served) (stream : PlainStream) → IsFed f.vb_or_status stream s
        → (member : ℕ) → IsMember member s.end.handshake → stream.reached < seq
        → Gets 0x22 s.end.handshake f s (message_answered f (SeqnoAcknowledged seq) s) }
    ensures counted { (f : FrameData) (seq : ℕ) (s : Served) (stream : PlainStream) → IsFed f.vb_or_status stream s
        → (member : ℕ) → IsMember member s.end.handshake → seq ≤ stream.reached → OneCount f member seq s }
    ensures only { (f : FrameData) (seq : ℕ) (s s' : Served) (first : Made) (more : List Made)
        → Told (message_answered f (SeqnoAcknowledged seq) s) (first ∷ more) s' → IsCountable f seq s }
{}

/// The names `n0` to `n15` are the members 0 to 15, and no other name is a member's.
pub fn members_are_named()
    ensures members { (m : ℕ) → m ≤ 15 → named_by (codes "n" ++ decimal m) ≡ Member m }
    ensures only { (m : ℕ) (value : List ℕ) → named_by value ≡ Member m → (m ≤ 15) × (value ≡ codes "n" ++ decimal m) }
    ensures above { named_by (codes "n16") ≡ Stranger }
    ensures zeros { named_by (codes "n015") ≡ Stranger }
    ensures letter { named_by (codes "N1") ≡ Stranger }
    ensures bare { named_by (codes "n") ≡ Stranger }
    ensures longer { named_by (codes "n1x") ≡ Stranger }
{}

/// A request for a stream is one call, under the connection's next number where the producer has nothing
/// against it and has no stream of its vBucket. Its line and its answer say what that one reply says: of
/// the failover log, of the last seqno, and whether the stream begins; it comes behind all others.
pub fn requests_are_one_call()
    ensures { (f : FrameData) (ask : AskData) (s : Served) → OneReply f ask s }
{}

/// A request for a stream is refused for the first of these reasons: Einval before OPEN and for flags
/// above 1, NotSupported for the flag 1 on a client's connection, Etmpfail behind 2^32 - 1 streams that were asked for,
/// NotMyVbucket where the vBucket is absent or not active, KeyEexists where the connection has a stream of
/// it, also one whose end is not put, and Erange where its numbers are out of order.
pub fn requests_are_refused_in_order()
    ensures einval { (f : FrameData) (ask : AskData) (s : Served) (states : States)
        → (s.end.handshake ≡ Fresh) ⊎ (1 < ask.flags) → RefusedWith 4 f ask s states }
    ensures unsupported { (f : FrameData) (ask : AskData) (s : Served) (states : States)
        → IsOpened s → IsClients s → ask.flags ≡ 1 → RefusedWith 0x83 f ask s states }
    ensures numbers { (f : FrameData) (ask : AskData) (s : Served) (states : States)
        → IsOpened s → AreTaken ask s → 4294967295 ≤ s.end.asked → RefusedWith 0x86 f ask s states }
    ensures elsewhere { (f : FrameData) (ask : AskData) (s : Served) (states : States)
        → IsForIt ask s → IsInactive (states f.vb_or_status) → RefusedWith 7 f ask s states }
    ensures held { (f : FrameData) (ask : AskData) (s : Served) (states : States) (vb : Plain) (stream : PlainStream)
        → IsForIt ask s → states f.vb_or_status ≡ Some vb → vb.role ≡ Active
        → IsStreamOf f.vb_or_status stream s.end.streams → RefusedWith 2 f ask s states }
    ensures outside { (f : FrameData) (ask : AskData) (s : Served) (states : States) (vb : Plain)
        → IsForIt ask s → states f.vb_or_status ≡ Some vb → vb.role ≡ Active
        → NoneOf f.vb_or_status s.end.streams → IsFree (number_behind s.end.asked s.end) vb → IsOutside ask → RefusedWith 0x22 f ask s states }
    ensures only { (f : FrameData) (ask : AskData) (s : Served) (states : States) (vb : Plain)
        → IsForIt ask s → states f.vb_or_status ≡ Some vb → vb.role ≡ Active
        → NoneOf f.vb_or_status s.end.streams → IsFree (number_behind s.end.asked s.end) vb → RefusedWith 2 f ask s states → ⊥ }
{}

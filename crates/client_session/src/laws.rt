//! What a client's connection does, each law as the contract of a function; nothing here runs.
ghost use Rattle.std.specs.Prelude.{◌≡◌, ◌≢◌, ◌<◌, ◌≤◌, ◌+◌, ◌-◌, ◌*◌, ◌^◌, ◌++◌, ◌∷◌, [], ℕ, Bool, true, false, List, map, Option, None, Some, Result, IsTrue, IsFalse};
ghost use Rattle.{std.specs.Int.{w64, to_be_bytes}, std.specs.List.{concat, flat_map}, client_session.specs.Conduct.{IsClients, IsAnyClients, Answered, Replied, Took, Waits, Came, Passed, came_handled, bytes_of}};
ghost use Rattle.client_session.specs.Rows.{Gets, GetsAtOnce, IsOutcome, Settles, WaitsAs, Greets, IsNoGreeting, IsForDocument, IsNotServing, NotMyVb, seqno_part};
ghost use Rattle.client_session.specs.Serving.{PlainSession, Served, served, new_session, is_dcp, is_held, is_waiting, awaits, told, outcome_of, durable_replied, with_used, next_waiter, deadline_of};
ghost use Rattle.client_session.specs.Serving.{request_handled, frame_handled, bytes_handled, outcome_handled, with_bytes};
ghost use Rattle.{client_session.specs.declared.session.Awaited.{Awaited as Wait}, client_session.specs.declared.session.Settings.{Settings as Features}, client_session.specs.declared.session.Who.{Who as Named}, mcbp_frame.specs.Frames.{first_frame}, mcbp_frame.specs.declared.frame.Frame.{Frame as Framed}};
ghost use Rattle.{mcbp_frame.specs.declared.frame.TheConstants.{RESPONSE}, mcbp_kv.specs.Answers.{IsFound, IsStored, IsBare, datatype_for}, mcbp_kv.specs.Commands.{IsNoop, IsHello}};
ghost use Rattle.{mcbp_kv.specs.Requests.{request_of}, mcbp_kv.specs.declared.durable.Durability.{Durability as Wish}, mcbp_kv.specs.declared.feature.Feature.{Feature as Chosen}, mcbp_kv.specs.declared.opcodes.TheConstants.{GET, NOOP}};
ghost use Rattle.{mcbp_kv.specs.declared.request.KvRequest.{KvRequest as Asked}, mcbp_kv.specs.declared.request.KvRequest.TheVariants.{Write}, vb_calls.specs.Programs.{Done, bind, each, after, AnyCall, Always, AlwaysFormed}, vb_calls.specs.States.{States}};
ghost use Rattle.{vb_calls.specs.declared.calls.Resolution.{Resolution as What}, vb_calls.specs.declared.calls.Resolution.TheVariants.{Committed, Ambiguous}, vb_calls.specs.declared.calls.Resolved.{Resolved as Outcome}, vb_calls.specs.declared.calls.VbAnswer.TheVariants.{Found, Stored, Prepared, Status}};
ghost use Rattle.client_session.specs.Asking.{AsksFirst};
ghost use Rattle.client_session.specs.{Answers.{fault_lines}, Serving.{ended_at, settings_of}};
ghost use Rattle.mcbp_frame.specs.declared.frame.FrameFault.{FrameFault as FaultData};
ghost use Rattle.mcbp_kv.specs.declared.feature.Feature.TheVariants as chosen;
ghost use Rattle.mcbp_kv.specs.declared.request.KvRequest.TheVariants as asks;
ghost use Rattle.vb_calls.specs.declared.calls.VbCall.TheVariants as calls;
ghost use Rattle.{vb_types.specs.Statuses.{status_code}, vb_types.specs.declared.change.Change.{Change as ChangeData}, vb_types.specs.declared.write.Write.{Write as WriteData}};
ghost use Rattle.{vb_types.specs.declared.doc.Doc.{Doc as DocData}, vb_events.specs.declared.event.Event.{Event as Line}, vb_events.specs.declared.event.Event.TheVariants.{Changed, Closed}, vb_types.specs.declared.status.Status.{Status as Said}};

/// Whatever replies of the right form come, each frame that asks gets one answer, in order, which
/// repeats its opcode and opaque; behind these a fault closes the connection. The frames are served
/// up to a durable write whose outcome is awaited, or a request of DCP, which is handed up and not
/// answered here; the bytes behind that are kept. A client's calls read and write documents alone.
pub fn requests_are_answered()
    ensures { (clock : ℕ) (piece : List ℕ) (s : Served) → IsFalse s.session.closed → s.session.awaited ≡ None → s.dcp ≡ None
        → AlwaysFormed (IsClients clock) (λ t. Took Answered (s.session.reader ++ piece) t.session.awaited t.dcp s t) (bytes_handled clock piece s) }
{}

/// Whatever comes to a new connection, pieces of bytes, outcomes, and its node's answers to the
/// requests of DCP that it handed up, in whatever order: of all the bytes that came each frame that
/// asks has one answer, in order, or was handed up once, in order, and has the lines that its node
/// answered it by; up to a durable write whose outcome is awaited, or a request of DCP that was handed
/// up and is not answered yet; and the bytes behind that are kept as they came.
pub fn histories_are_answered()
    ensures { (node_lines : Framed → List Line) (who : Named) (came : List Came)
        → AlwaysFormed IsAnyClients (λ t. Took (Replied node_lines) (flat_map bytes_of came) t.session.awaited t.dcp (served (new_session who) []) t)
        (each (came_handled node_lines) came (served (new_session who) [])) }
{}

/// The pieces in which bytes come change nothing. Between them less than a frame is kept, unless an
/// outcome is awaited, or the answer to a frame that was handed up.
pub fn pieces_do_not_matter()
    ensures two { (clock : ℕ) (a b : List ℕ) (s : Served)
        → bytes_handled clock (a ++ b) s ≡ bind (bytes_handled clock a s) (bytes_handled clock b) }
    ensures all { (clock : ℕ) (pieces : List (List ℕ)) (s : Served) → Waits s
        → each (bytes_handled clock) pieces s ≡ bytes_handled clock (concat pieces) s }
    ensures new { (who : Named) → Waits (served (new_session who) []) }
    ensures kept { (clock : ℕ) (piece : List ℕ) (s : Served)
        → Always AnyCall Waits (bytes_handled clock piece s) }
    ensures settled { (clock : ℕ) (r : Outcome) (s : Served) → Waits s
        → Always AnyCall Waits (outcome_handled clock r s) }
{}

/// While an outcome is awaited, or the answer to a request of DCP that was handed up, all bytes that
/// come are kept, whatever they are: neither a fault nor a HELLO nor a further request of DCP among
/// them is met before. Bytes that came before the outcome, or the answer, are served after it exactly
/// as if they had come then.
pub fn frames_wait_behind()
    ensures kept { (clock : ℕ) (piece : List ℕ) (s : Served) → IsFalse s.session.closed → IsTrue (is_held s)
        → bytes_handled clock piece s ≡ Done (with_bytes (s.session.reader ++ piece) s) }
    ensures later { (clock after : ℕ) (r : Outcome) (piece : List ℕ) (s : Served) → IsFalse s.session.closed → IsTrue (is_waiting s.session)
        → bind (bytes_handled clock piece s) (outcome_handled after r) ≡ bind (outcome_handled after r s) (bytes_handled after piece) }
    ensures passed { (clock after : ℕ) (node_lines : Framed → List Line) (f : Framed) (piece : List ℕ) (s : Served) → IsFalse s.session.closed → s.dcp ≡ Some f
        → bind (bytes_handled clock piece s) (came_handled node_lines (Passed after))
        ≡ bind (came_handled node_lines (Passed after) s) (bytes_handled after piece) }
{}

/// The outcome that is awaited is the answer, and then the bytes behind are served. Any other outcome
/// changes nothing.
pub fn outcomes_are_told()
    ensures mine { (clock : ℕ) (a : Wait) (how : What) (s : Served) → IsFalse s.session.closed → s.session.awaited ≡ Some a
        → Settles (IsOutcome s.session.settings a.opcode a.opaque how) clock s
        (outcome_handled clock (record { waiter = a.waiter; how = how }) s) }
    ensures others { (clock : ℕ) (r : Outcome) (s : Served) → IsFalse (awaits r.waiter s.session.awaited)
        → outcome_handled clock r s ≡ Done s }
    ensures committed { (settings : Features) (opcode opaque uuid seq cas : ℕ) (g : Framed)
        → IsOutcome settings opcode opaque (Committed uuid seq cas) g → IsStored g opcode opaque cas (seqno_part settings uuid seq) }
    ensures ambiguous { (settings : Features) (opcode opaque : ℕ) (g : Framed)
        → IsOutcome settings opcode opaque Ambiguous g → IsBare g opcode 0xa3 opaque }
{}

/// The changes of a durable write are told, and then its outcome where it is known already; it is
/// awaited elsewhere. A refusal has an empty body.
pub fn durable_writes_are_told()
    ensures awaited { (waiter : ℕ) (f : Framed) (s : Served) (seq cas : ℕ) (resolved : List Outcome) (ended : List ℕ) (branch : ℕ) (changes : List ChangeData)
        → outcome_of waiter resolved ≡ None
        → durable_replied waiter f s (Some (record { answer = Prepared seq cas; resolved = resolved; ended = ended; branch = branch; changes = changes }))
        ≡ record s {
          session = record s.session { awaited = Some (record { waiter = waiter; opcode = f.opcode; opaque = f.opaque }) };
          events = s.events ++ map (Changed s.session.who.node f.vb_or_status branch) changes;
        } }
    ensures at_once { (waiter : ℕ) (f : Framed) (s : Served) (seq cas : ℕ) (how : What) (resolved : List Outcome) (ended : List ℕ) (branch : ℕ) (changes : List ChangeData)
        → s.session.awaited ≡ None → outcome_of waiter resolved ≡ Some how
        → Gets (IsOutcome s.session.settings f.opcode f.opaque how) (map (Changed s.session.who.node f.vb_or_status branch) changes) s
        (durable_replied waiter f s (Some (record { answer = Prepared seq cas; resolved = resolved; ended = ended; branch = branch; changes = changes }))) }
    ensures refused { (waiter : ℕ) (f : Framed) (st : Said) (s : Served) (resolved : List Outcome) (ended : List ℕ) (branch : ℕ) (changes : List ChangeData)
        → Gets (λ g. IsBare g f.opcode (status_code st) f.opaque) (map (Changed s.session.who.node f.vb_or_status branch) changes) s
        (durable_replied waiter f s (Some (record { answer = Status st; resolved = resolved; ended = ended; branch = branch; changes = changes }))) }
    ensures absent { (waiter : ℕ) (f : Framed) (s : Served)
        → Gets (λ g. IsBare g f.opcode 0x07 f.opaque) [] s (durable_replied waiter f s None) }
    ensures idle { (clock : ℕ) (f : Framed) (write : WriteData) (wish : Wish) (s : Served) (states : States) → f.magic ≢ RESPONSE
        → request_of s.session.settings.json f ≡ Ok (Write write (Some wish)) → s.session.used < 2 ^ 32 - 1 → IsNotServing (states f.vb_or_status)
        → NotMyVb f (with_used s) states (after (frame_handled clock f s) states) }
{}

/// A durable write is one call to the vBucket that its frame names, which gives it up after so many
/// milliseconds, and it waits under the next number: of all waits of all connections of different
/// bases no two have one number, since each call uses one up, and none comes back. There are 2^32 - 1
/// for a connection; after them it is refused with Etmpfail.
pub fn waits_have_numbers()
    ensures called { (clock : ℕ) (f : Framed) (write : WriteData) (wish : Wish) (s : Served) → s.session.used < 2 ^ 32 - 1
        → Always (λ v c. (v ≡ f.vb_or_status) × WaitsAs (next_waiter s.session) (deadline_of clock wish.timeout) c)
        (λ t. t.session.used ≡ s.session.used + 1) (request_handled clock f (Ok (Write write (Some wish))) s) }
    ensures full { (clock : ℕ) (f : Framed) (write : WriteData) (wish : Wish) (s : Served) → 2 ^ 32 - 1 ≤ s.session.used
        → GetsAtOnce (λ g. IsBare g f.opcode 0x86 f.opaque) s (request_handled clock f (Ok (Write write (Some wish))) s) }
    ensures differ { (a b : PlainSession) → a.used < 2 ^ 32 - 1 → b.used < 2 ^ 32 - 1 → next_waiter a ≡ next_waiter b
        → (a.who.base ≡ b.who.base) × (a.used ≡ b.used) }
    ensures bytes { (clock : ℕ) (piece : List ℕ) (s : Served)
        → Always AnyCall (λ t. s.session.used ≤ t.session.used) (bytes_handled clock piece s) }
    ensures outcome { (clock : ℕ) (r : Outcome) (s : Served)
        → Always AnyCall (λ t. s.session.used ≤ t.session.used) (outcome_handled clock r s) }
    ensures numbers { (who : Named) → who.base ≡ 3
        → (next_waiter (new_session who) ≡ 12884901889) × (next_waiter (record (new_session who) { used = 4294967294 }) ≡ 17179869183) }
{}

/// When a durable write is given up, in nanoseconds of the clock, by its timeout in milliseconds.
pub fn deadlines_in_numbers()
    ensures early { (clock timeout : ℕ) → clock + timeout * 1000000 ≤ 2 ^ 64 - 1 → deadline_of clock timeout ≡ clock + timeout * 1000000 }
    ensures late { (clock timeout : ℕ) → 2 ^ 64 - 1 ≤ clock + timeout * 1000000 → deadline_of clock timeout ≡ 2 ^ 64 - 1 }
    ensures default { deadline_of 5 30000 ≡ 30000000005 }
    ensures last { deadline_of 18446744073709551615 1 ≡ 18446744073709551615 }
{}

/// Less than a frame is kept, and is not answered.
pub fn cut_frames_are_not_answered()
    ensures { (clock : ℕ) (piece : List ℕ) (s : Served) → IsFalse s.session.closed
        → first_frame (s.session.reader ++ piece) ≡ None
        → bytes_handled clock piece s ≡ Done (with_bytes (s.session.reader ++ piece) s) }
{}

/// A closed connection answers nothing, and keeps nothing.
pub fn closed_connections_are_silent()
    ensures { (clock : ℕ) (piece : List ℕ) (s : Served) → IsTrue s.session.closed
        → bytes_handled clock piece s ≡ Done s }
{}

/// After HELLO the settings are its accepted features alone. No other request changes them.
pub fn greetings_replace()
    ensures hello { (clock : ℕ) (f : Framed) (features : List Chosen) (s : Served)
        (hello : IsHello s.session.settings.json f features)
        → (t : Served) × (frame_handled clock f s ≡ Done t) × Greets hello.codes f features s t }
    ensures others { (clock : ℕ) (f : Framed) (r : Result Asked Said) (s : Served) → IsNoGreeting r
        → Always AnyCall (λ t. t.session.settings ≡ s.session.settings) (request_handled clock f r s) }
{}

/// A document is shown with its datatype where the client asked for JSON, and with 0 elsewhere.
pub fn hidden_datatype()
    ensures found { (f : Framed) (s : Served) (doc : DocData) (resolved : List Outcome) (ended : List ℕ) (branch : ℕ) (changes : List ChangeData) → f.opcode ≡ GET
        → Gets (λ g. IsFound s.session.settings.json g f.opaque doc) [] s
        (told f s (Some (record { answer = Found doc; resolved = resolved; ended = ended; branch = branch; changes = changes }))) }
    ensures hidden { (doc : DocData) → datatype_for false doc ≡ 0 }
    ensures shown { (doc : DocData) → datatype_for true doc ≡ doc.datatype }
{}

/// A write that is made is told by its changes, and answered with its CAS, and with its branch and
/// seqno where the client asked for the feature of mutation seqnos.
pub fn writes_are_told()
    ensures stored { (f : Framed) (s : Served) (uuid seq cas : ℕ) (resolved : List Outcome) (ended : List ℕ) (branch : ℕ) (changes : List ChangeData)
        → Gets (λ g. IsStored g f.opcode f.opaque cas (seqno_part s.session.settings uuid seq))
        (map (Changed s.session.who.node f.vb_or_status uuid) changes) s
        (told f s (Some (record { answer = Stored uuid seq cas; resolved = resolved; ended = ended; branch = branch; changes = changes }))) }
    ensures plain { (json : Bool) (uuid seq : ℕ)
        → seqno_part (record { json = json; seqnos = false }) uuid seq ≡ [] }
    ensures both { (json : Bool) (uuid seq : ℕ)
        → seqno_part (record { json = json; seqnos = true }) uuid seq
        ≡ to_be_bytes w64 uuid ++ to_be_bytes w64 seq }
{}

/// A refusal has an empty body: at once where the frame itself is refused and is none of DCP, by the
/// vBucket's reply elsewhere. It is NotMyVbucket where there is no such vBucket, or it is not active.
/// A NOOP gets a Success with an empty body.
pub fn refusals_are_told()
    ensures at_once { (clock : ℕ) (f : Framed) (st : Said) (s : Served) → f.magic ≢ RESPONSE → IsFalse (is_dcp f.opcode)
        → request_of s.session.settings.json f ≡ Err st
        → GetsAtOnce (λ g. IsBare g f.opcode (status_code st) f.opaque) s (frame_handled clock f s) }
    ensures by_reply { (f : Framed) (st : Said) (s : Served) (resolved : List Outcome) (ended : List ℕ) (branch : ℕ) (changes : List ChangeData)
        → Gets (λ g. IsBare g f.opcode (status_code st) f.opaque) [] s
        (told f s (Some (record { answer = Status st; resolved = resolved; ended = ended; branch = branch; changes = changes }))) }
    ensures absent { (f : Framed) (s : Served)
        → Gets (λ g. IsBare g f.opcode 0x07 f.opaque) [] s (told f s None) }
    ensures idle { (clock : ℕ) (f : Framed) (r : Asked) (s : Served) (states : States) → f.magic ≢ RESPONSE
        → request_of s.session.settings.json f ≡ Ok r → IsForDocument r → IsNotServing (states f.vb_or_status)
        → NotMyVb f s states (after (frame_handled clock f s) states) }
    ensures noop { (clock : ℕ) (f : Framed) (s : Served) → IsNoop s.session.settings.json f
        → GetsAtOnce (λ g. IsBare g NOOP 0 f.opaque) s (frame_handled clock f s) }
{}

/// A request asks its vBucket for just what it says: a GET for its key, a write for that write as it
/// came, with its CAS, and a durable one for it at the level that it requires.
pub fn requests_ask_for_just_that()
    ensures get { (clock : ℕ) (f : Framed) (key : List ℕ) (s : Served) → AsksFirst f.vb_or_status (calls.Get key) (request_handled clock f (Ok (asks.Get key)) s) }
    ensures write { (clock : ℕ) (f : Framed) (write : WriteData) (s : Served)
        → AsksFirst f.vb_or_status (calls.Store write clock) (request_handled clock f (Ok (Write write None)) s) }
    ensures durable { (clock : ℕ) (f : Framed) (write : WriteData) (wish : Wish) (s : Served) → s.session.used < 2 ^ 32 - 1
        → AsksFirst f.vb_or_status (calls.Durable write clock wish.level (deadline_of clock wish.timeout) (next_waiter s.session))
        (request_handled clock f (Ok (Write write (Some wish))) s) }
{}

/// A connection begins open, with nothing asked for by HELLO, without bytes and without a wait. Of HELLO
/// the two features that change answers are set, each by its own, and all others change nothing.
pub fn connections_begin_bare()
    ensures open_one { (who : Named) → ((new_session who).closed ≡ false) × ((new_session who).reader ≡ []) × ((new_session who).who ≡ who) }
    ensures bare { (who : Named) → ((new_session who).settings.json ≡ false) × ((new_session who).settings.seqnos ≡ false) }
    ensures waits { (who : Named) → ((new_session who).used ≡ 0) × ((new_session who).awaited ≡ None) }
    ensures set { (settings_of (chosen.Json ∷ []) ≡ record { json = true; seqnos = false }) × (settings_of (chosen.MutationSeqnos ∷ []) ≡ record { json = false; seqnos = true }) }
    ensures both { settings_of (chosen.AltRequests ∷ chosen.MutationSeqnos ∷ chosen.SyncReplication ∷ chosen.Json ∷ []) ≡ record { json = true; seqnos = true } }
    ensures others { (settings_of (chosen.AltRequests ∷ chosen.SyncReplication ∷ []) ≡ record { json = false; seqnos = false }) × (settings_of [] ≡ record { json = false; seqnos = false }) }
{}

/// A fault closes a connection, which keeps no bytes then; where there is none it stays as it is.
pub fn faults_close()
    ensures closed { (fault : FaultData) (s : Served) → (ended_at (Some fault) s).session ≡ record s.session { reader = []; closed = true } }
    ensures stays { (s : Served) → ended_at None s ≡ s }
    ensures unnamed { fault_lines 3 7 None ≡ Closed 3 7 ∷ [] }
{}

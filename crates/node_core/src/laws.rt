//! What holds of every node. Each law is a function with no work to do, and its clauses are the law.
ghost use Rattle.std.specs.Prelude.{◌≡◌, ◌≢◌, ◌++◌, ◌∷◌, [], ℕ, Bool, List, map, None, Some, false, true, if◌then◌else◌};
ghost use Rattle.std.specs.List.{All, flat_map};
ghost use Rattle.{node_core.specs.Conduct.{FollowsAt, RollsAt, KeepsLink}, node_core.specs.Dials.{PlainDial, untold, is_over, with_left, with_last_line, dial_bytes}};
ghost use Rattle.{node_core.specs.declared.node.TheConstants.{MAX_VBS}, vb_calls.specs.Jobs.{Ended, AlwaysJob, RanJob, after_job}, vb_calls.specs.Programs.{AnyReply, Ran}};
ghost use Rattle.{durability.specs.Chains.{Links}, node_core.specs.Resolving.{DoneHandsOver, RoleHandsOver, Settled, StepHandsOver}, vb_calls.specs.Shelves.{Shelves}, vb_calls.specs.States.{States}};
ghost use Rattle.{node_core.specs.Admin.{AdminResult, admin_job, admin_lines, admin_result, stat_result, trim_result}, node_core.specs.Flushing.{FlushResult, activity_of_reply, chain_changed, flush_answered, flush_at, flush_result, ticked}, node_core.specs.Noting.{Gives, ChangesRole, FlushesAt, NotesFirst}};
ghost use Rattle.{node_core.specs.declared.admin.AdminCall.{AdminCall as TheCall}, vb_types.specs.declared.role.Role.{Role as TheRole}, vb_types.specs.declared.journal.FlushPart.{FlushPart as ThePart}};
ghost use Rattle.{node_core.specs.Calls.{branch_lines}, node_core.specs.Loading.{start_result}, vb_calls.specs.declared.calls.Resolved.{Resolved as Outcome}, vb_types.specs.declared.change.Change.{Change}};
ghost use Rattle.{mcbp_frame.specs.Cutting.{frames_in, left_of}, node_core.specs.Conduct.{AnyOther, DueNext, CallsAs, Acknowledged, Delivers, begins}, node_core.specs.Dials.{dial_due}, vb_calls.specs.Jobs.{lift}, vb_calls.specs.Programs.{Done}};
ghost use Rattle.{dcp_producer.specs.Producers.{Served as Put}, node_core.specs.{Outs.{dropped_out}, Peers.{pull_result}}};
ghost use Rattle.{dcp_consumer.specs.{Machine.{over_why}, Noops.{noop_answered, IsNoop}}, mcbp_frame.specs.{Cutting.{front_fault}, declared.frame.Frame.{Frame as FrameData}}, node_core.specs.Dials.{DialResult, frames_taken}, vb_calls.specs.Jobs.{bind_job}};
ghost use Rattle.dcp_consumer.specs.declared.handshake.Handshake.TheVariants as handshake;
ghost use Rattle.dcp_producer.specs.declared.halt.Halt.TheVariants as halt;
ghost use Rattle.node_core.specs.declared.admin.AdminCall.TheVariants as admin;
ghost use Rattle.vb_events.specs.declared.event.Answer.TheVariants as line;
ghost use Rattle.vb_events.specs.declared.event.Cause.TheVariants as cause;
ghost use Rattle.vb_events.specs.declared.event.Event.TheVariants as event;
ghost use Rattle.vb_events.specs.declared.event.Why.TheVariants as why;
ghost use Rattle.vb_calls.specs.declared.calls.VbAnswer.TheVariants as answer;
ghost use Rattle.vb_calls.specs.declared.calls.VbCall.TheVariants as call;
ghost use Rattle.vb_calls.specs.declared.journals.Flushed.TheVariants as flushed;
ghost use Rattle.vb_calls.specs.declared.journals.Wrote.TheVariants as wrote;
ghost use Rattle.vb_types.specs.declared.journal.FlushPart.TheVariants as part;
ghost use Rattle.vb_types.specs.declared.role.Role.TheVariants as role;
ghost use Rattle.vb_types.specs.declared.status.Status.TheVariants as status;

use vb_calls::{Journals, VbAccess};

/// A node has at most 64 vBuckets.
pub fn node_limits()
    ensures { MAX_VBS ≡ 64 }
{}

/// A dial calls its own vBucket alone, and only as a follower, and asks its own journal alone, and only
/// to roll back; where its link takes the vBucket over, also as one that does. It hands out nothing but
/// requests for a stream, each with the next opaque, acknowledgements of seqnos and of bytes, and
/// answers to NOOPs and states, tells lines of its own vBucket and link alone, and stays that of its
/// link.
pub fn dials_follow()
    ensures { (piece : List ℕ) (dial : PlainDial)
        → AlwaysJob AnyReply (FollowsAt dial.consumer.dialed) (RollsAt dial.consumer.dialed) (KeepsLink (untold dial)) (dial_bytes piece dial) }
{}

/// Whatever is replied, a dial asks what is due right behind each log and each message that is taken, as
/// its stream is granted then, and nowhere else. It acknowledges the seqno that the reply names, where
/// that is above the last one that it acknowledged, and tells so in one line, with what the same reply
/// says is written down. It acknowledges no other seqno. After more was written down it asks once, if its
/// stream is granted, and else does nothing.
///
/// Last of all that it writes of a delivery, it acknowledges by one number how long the frames that
/// count and were whole in it are together: exactly where there is one, its link has a buffer, and goes
/// on. Of a delivery it answers the NOOPs up to the frame that ends its link, each once, in their order,
/// and nothing but a NOOP. After more was written down it acknowledges no bytes, and answers none. What is
/// left of the bytes behind the frames that were whole is kept, whatever became of these, and also after
/// more was written down.
pub fn dials_acknowledge()
    ensures bytes { (piece : List ℕ) (dial : PlainDial) → CallsAs (Delivers (frames_in (dial.heard ++ piece)) (left_of (dial.heard ++ piece)) (untold dial)) (begins AnyOther dial) (dial_bytes piece dial) }
    ensures saved { (dial : PlainDial) → dial.consumer.handshake ≡ handshake.Streaming → CallsAs (Acknowledged [] [] (untold dial)) (begins DueNext dial) (lift (dial_due dial)) }
    ensures idle { (dial : PlainDial) → dial.consumer.handshake ≢ handshake.Streaming → dial_due dial ≡ Done (untold dial) }
{}

/// A NOOP of the producer is answered in its place among the frames of a delivery, whatever is waited
/// for, unless the link is over by then; and nothing else comes of it, neither a call nor a line. A
/// delivery of nothing but NOOPs makes the dial write their answers alone, in their order.
pub fn noops_are_answered()
    ensures place { (f : FrameData) → IsNoop f → (before behind : List FrameData) (s : DialResult)
        → frames_taken (before ++ f ∷ behind) s ≡ bind_job (frames_taken before s) (λ t. frames_taken behind (if is_over t.dial then t else record t { out = t.out ++ noop_answered f.opaque })) }
    ensures alone { (piece : List ℕ) (dial : PlainDial) → over_why dial.consumer.handshake ≡ None → All IsNoop (frames_in (dial.heard ++ piece)) → front_fault (left_of (dial.heard ++ piece)) ≡ None
        → dial_bytes piece dial ≡ Ended (record { dial = record dial { heard = left_of (dial.heard ++ piece) }; events = []; out = flat_map (λ (f : FrameData). noop_answered f.opaque) (frames_in (dial.heard ++ piece)) }) }
{}

/// Over plain vBuckets and journals that is so: all but its own stay as they are, and its link is
/// kept.
pub fn dials_leave_other_vbuckets()
    ensures others { (piece : List ℕ) (dial : PlainDial) (states : States) (shelves : Shelves) (v : ℕ) → v ≢ dial.consumer.dialed.vb
        → ((after_job (dial_bytes piece dial) states shelves).0.0 v ≡ states v) × ((after_job (dial_bytes piece dial) states shelves).0.1 v ≡ shelves v) }
    ensures link { (piece : List ℕ) (dial : PlainDial) (states : States) (shelves : Shelves) → KeepsLink (untold dial) (after_job (dial_bytes piece dial) states shelves).1 }
{}

/// Once its link is over, a dial makes no call and no request, and hands out nothing but its last line.
pub fn dials_end()
    ensures { (piece : List ℕ) (dial : PlainDial) → is_over dial ≡ true
        → dial_bytes piece dial ≡ Ended (with_last_line (with_left (untold dial) (dial.heard ++ piece))) }
{}

/// A change of role is the vBucket's call first. One that is refused asks the journal for nothing. Any
/// other is written down, with the failover log then; it is answered `closed` exactly where an earlier
/// append failed, and `disk` exactly where its own does.
pub fn roles_are_noted<A: VbAccess, J: Journals>()
    ensures { (n v : ℕ) (asked : TheCall) (new : TheRole) (old : A) (kept : J) (told : AdminResult) (now : A) (left : J) → Gives asked new
        → RanJob A.step J.asks (admin_job n v asked) old kept told now left → ChangesRole A.step J.asks v asked new old kept told now left }
{}

/// A vBucket that is made has its role written down, with the failover log that it begins with. It is
/// answered `ok` exactly where that stands, `closed` exactly where an earlier append failed, and `disk`
/// exactly where its own does.
pub fn first_records<J: Journals>()
    ensures { NotesFirst J.asks }
{}

/// A step of writing down is refused for want of a vBucket exactly where the access says that there is
/// none, and then no vBucket is called and no journal asked; a take because a batch is on its way exactly
/// where one is; and a save or a done because none is exactly where there is none that it could be made
/// of.
pub fn flushes_are_refused<A: VbAccess, J: Journals>()
    ensures { (n v : ℕ) (part : ThePart) (old : A) (kept : J) (told : FlushResult) (now : A) (left : J)
        → RanJob A.step J.asks (flush_at n v part (A.has old v)) old kept told now left → FlushesAt J.asks (A.has old v) v part old kept told now left }
{}

/// What became of durable writes is told with what it came of: a change of role, a done, a chain or a
/// tick that is carried out hands over what its reply names, in that order, and one that is refused
/// hands over nothing. No step of writing down but a done hands over anything. A chain and a tick are
/// refused for want of a vBucket exactly where there is no reply, and for its role exactly where the
/// reply is a status; otherwise their lines are those of the reply's changes, each on its branch.
pub fn outcomes_are_told<A: VbAccess, J: Journals>()
    ensures roles { (n v : ℕ) (asked : TheCall) (new : TheRole) (old : A) (kept : J) (told : AdminResult) (now : A) (left : J) → Gives asked new
        → RanJob A.step J.asks (admin_job n v asked) old kept told now left → RoleHandsOver A.step v asked old told }
    ensures dones { (n v : ℕ) (there : Bool) (old : A) (kept : J) (told : FlushResult) (now : A) (left : J)
        → RanJob A.step J.asks (flush_at n v part.Done there) old kept told now left → DoneHandsOver A.step v told now }
    ensures steps { (n v : ℕ) (any : ThePart) (there : Bool) (old : A) (kept : J) (told : FlushResult) (now : A) (left : J)
        → RanJob A.step J.asks (flush_at n v any there) old kept told now left → StepHandsOver A.step v told now }
    ensures chains { (n v : ℕ) (links : Links) (old : A) (told : FlushResult) (now : A)
        → Ran A.step (chain_changed n v links) old told now → Settled A.step n v (call.Chain links) old told now }
    ensures ticks { (n v clock : ℕ) (old : A) (told : FlushResult) (now : A)
        → Ran A.step (ticked n v clock) old told now → Settled A.step n v (call.Tick clock) old told now }
{}

/// The changes that a vBucket makes at once stand behind the lines of its new branch and role, each on the
/// branch of its reply, with numbers of which no two are alike.
pub fn promotions_in_numbers()
    ensures operator { (resolved : List Outcome) (ids : List ℕ) (changes : List Change)
        → admin_result 1 2 (admin.Promote 3) (Some (record { answer = answer.Branch 4 (Some 5) 6 7; resolved = resolved; ended = ids; branch = 8; changes = changes }))
        ≡ record { events = event.Branch 1 2 4 (Some 5) 6 7 ∷ event.Role 1 2 role.Active ∷ map (event.Changed 1 2 8) changes; answer = line.Ok; ended = Some ids; resolved = resolved } }
    ensures start { (resolved : List Outcome) (ids : List ℕ) (changes : List Change)
        → start_result 1 2 (Some (record { answer = answer.Branch 4 (Some 5) 6 7; resolved = resolved; ended = ids; branch = 8; changes = changes }), wrote.Stood)
        ≡ record { events = event.Branch 1 2 4 (Some 5) 6 7 ∷ map (event.Changed 1 2 8) changes; answer = line.Ok; resolved = [] } }
{}

/// A vBucket that is made active tells its branch and then its role, and any other its role alone.
pub fn makings_in_numbers()
    ensures active { branch_lines 1 2 role.Active 3 ≡ event.Branch 1 2 3 None 0 0 ∷ event.Role 1 2 role.Active ∷ [] }
    ensures replica { branch_lines 1 2 role.Replica 3 ≡ event.Role 1 2 role.Replica ∷ [] }
{}

/// What is told of a Stat, of a Trim and of a step of writing down, with numbers of which no two are
/// alike; whether a stream had the cursor that was taken away from it; whether a vBucket is active, by its refusal of the branch 0: one that is not takes the id for bad;
/// and why a pull put no more, beside how many frames it put.
pub fn told_in_numbers()
    ensures stat { stat_result 1 2 (answer.Stat 3 4 5 6 7) ≡ admin_lines (event.Stat 1 2 3 4 5 6 7 ∷ []) }
    ensures trimmed { trim_result (answer.Num 8) ≡ record { events = []; answer = line.Number 8; ended = None; resolved = [] } }
    ensures dropped { (dropped_out true ≡ record { events = []; out = []; answer = line.Number 1; closed = false; resolved = [] }) × (dropped_out false ≡ record { events = []; out = []; answer = line.Number 0; closed = false; resolved = [] }) }
    ensures took { flush_result 1 2 (flushed.Took 3 4 5 6) ≡ record { events = event.Batch 1 2 3 4 5 6 ∷ []; answer = line.Number 6; resolved = [] } }
    ensures none { flush_result 1 2 (flushed.Took 0 0 0 0) ≡ flush_answered (line.Number 0) }
    ensures saved { flush_result 1 2 flushed.Saved ≡ flush_answered line.Ok }
    ensures finished { (resolved : List Outcome) (ids : List ℕ) (changes : List Change)
        → flush_result 1 2 (flushed.Done (Some (record { answer = answer.Num 7; resolved = resolved; ended = ids; branch = 8; changes = changes })))
        ≡ record { events = map (event.Changed 1 2 8) changes; answer = line.Number 7; resolved = resolved } }
    ensures active { (resolved : List Outcome) (ids : List ℕ) (changes : List Change)
        → activity_of_reply (Some (record { answer = answer.Status status.NotMyVbucket; resolved = resolved; ended = ids; branch = 8; changes = changes })) ≡ Some true }
    ensures inactive { (resolved : List Outcome) (ids : List ℕ) (changes : List Change)
        → activity_of_reply (Some (record { answer = answer.Status status.Einval; resolved = resolved; ended = ids; branch = 8; changes = changes })) ≡ Some false }
    ensures pulled { (heard : List ℕ) (s : Put) → ((pull_result heard (s, halt.All)).answer ≡ line.Pulled s.count why.All) × ((pull_result heard (s, halt.Idle)).answer ≡ line.Pulled s.count why.Idle)
        × ((pull_result heard (s, halt.Full)).answer ≡ line.Pulled s.count why.Full) × ((pull_result heard (s, halt.WaitSaved)).answer ≡ line.Pulled s.count why.WaitSaved)
        × ((pull_result heard (s, halt.WaitState)).answer ≡ line.Pulled s.count why.WaitState) × ((pull_result heard (s, halt.Disk)).answer ≡ line.Pulled s.count why.Disk) }
    ensures failed { (flush_result 1 2 flushed.Closed ≡ flush_answered (line.No cause.Closed)) × (flush_result 1 2 flushed.DiskFailed ≡ flush_answered (line.No cause.Disk)) }
{}

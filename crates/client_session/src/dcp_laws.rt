//! Which frames a client's connection hands up, each law as the contract of a function; nothing here
//! runs.
ghost use Rattle.std.specs.Prelude.{◌≡◌, ◌≢◌, ◌<◌, ◌++◌, ◌∷◌, [], ℕ, Bool, List, None, Some, IsTrue, IsFalse, drop, length};
ghost use Rattle.client_session.specs.Asking.{AsksFirst};
ghost use Rattle.client_session.specs.Numbers.{bare_bytes, noop_bytes, stream_bytes, get_bytes, set_bytes, new_one, answers, stream_handed, set_awaited, prepared, EndsBehind};
ghost use Rattle.client_session.specs.Serving.{Served, served, is_dcp, handed, is_held, frame_handled, bytes_handled, outcome_handled, with_bytes};
ghost use Rattle.mcbp_frame.specs.{Frames.{first_frame, frame_len}, declared.frame.Frame.{Frame as Framed}, declared.frame.TheConstants.{RESPONSE}};
ghost use Rattle.{mcbp_kv.specs.Requests.{request_of}, mcbp_kv.specs.declared.request.KvRequest.{KvRequest as Asked}};
ghost use Rattle.{vb_calls.specs.Programs.{Done, AnyCall, Always}, vb_calls.specs.declared.calls.Resolution.TheVariants.{Ambiguous}, vb_calls.specs.declared.calls.Resolved.{Resolved as Outcome}, vb_calls.specs.declared.calls.VbCall.TheVariants.{Get}};

/// A request is handed up exactly where it is DCP's by its opcode and its turn comes: nothing is
/// awaited, no other one that was handed up waits for its answer, and all frames in front were served.
/// It is handed up as it came, nothing is told of it, and the bytes behind it stay as they came. A
/// response is dropped, whatever its opcode.
pub fn dcp_is_handed_up()
    ensures first { (clock : ℕ) (piece : List ℕ) (f : Framed) (s : Served) → IsFalse s.session.closed → IsFalse (is_held s)
        → first_frame (s.session.reader ++ piece) ≡ Some (Ok f) → f.magic ≢ RESPONSE → IsTrue (is_dcp f.opcode)
        → bytes_handled clock piece s ≡ Done (handed f (with_bytes (drop (frame_len f) (s.session.reader ++ piece)) s)) }
    ensures turn { (clock : ℕ) (f : Framed) (s : Served) → f.magic ≢ RESPONSE → IsTrue (is_dcp f.opcode)
        → frame_handled clock f s ≡ Done (handed f s) }
    ensures others { (clock : ℕ) (f : Framed) (s : Served) → IsFalse (is_dcp f.opcode)
        → Always AnyCall (λ t. t.dcp ≡ s.dcp) (frame_handled clock f s) }
    ensures only { (clock : ℕ) (piece : List ℕ) (s : Served) → s.dcp ≡ None
        → Always AnyCall (λ t. (f : Framed) → t.dcp ≡ Some f → (f.magic ≢ RESPONSE) × IsTrue (is_dcp f.opcode)) (bytes_handled clock piece s) }
    ensures behind { (clock : ℕ) (r : Outcome) (s : Served) → s.dcp ≡ None
        → Always AnyCall (λ t. (f : Framed) → t.dcp ≡ Some f → (f.magic ≢ RESPONSE) × IsTrue (is_dcp f.opcode)) (outcome_handled clock r s) }
    ensures dropped { (clock : ℕ) (f : Framed) (s : Served) → f.magic ≡ RESPONSE → frame_handled clock f s ≡ Done s }
    ensures commands { (json : Bool) (f : Framed) (r : Asked) → request_of json f ≡ Ok r → IsFalse (is_dcp f.opcode) }
    ensures same { (f : Framed) (s : Served) → ((handed f s).session ≡ s.session) × ((handed f s).events ≡ s.events) × ((handed f s).dcp ≡ Some f) }
    ensures fewer { (clock : ℕ) (piece : List ℕ) (s : Served) → s.dcp ≡ None
        → Always AnyCall (λ t. (f : Framed) → t.dcp ≡ Some f → length t.session.reader < length (s.session.reader ++ piece)) (bytes_handled clock piece s) }
{}

/// A NOOP, a STREAM_REQUEST and a GET in one piece: the NOOP is answered, the STREAM_REQUEST is handed
/// up, and the GET is kept, and served once the connection goes on. Behind a durable write whose outcome
/// is awaited the STREAM_REQUEST is kept, and handed up behind the outcome. Its answer is dropped. An
/// opcode that DCP has not is not known.
pub fn handed_up_in_numbers()
    ensures between { bytes_handled 7 (noop_bytes ++ (stream_bytes ++ get_bytes)) new_one ≡ Done (stream_handed 0 (answers (bare_bytes 0x81 0x0a 0 0 1)) get_bytes) }
    ensures onward { AsksFirst 5 (Get (0x6b ∷ [])) (bytes_handled 7 [] (served (stream_handed 0 [] get_bytes).session [])) }
    ensures waits { EndsBehind (prepared []) (set_awaited stream_bytes) (bytes_handled 7 (set_bytes ++ stream_bytes) new_one) }
    ensures known { EndsBehind (prepared (record { waiter = 12884901889; how = Ambiguous } ∷ [])) (stream_handed 1 (answers (bare_bytes 0x81 0x01 0xa3 0 4)) []) (bytes_handled 7 (set_bytes ++ stream_bytes) new_one) }
    ensures later { outcome_handled 7 (record { waiter = 12884901889; how = Ambiguous }) (set_awaited stream_bytes) ≡ Done (stream_handed 1 (answers (bare_bytes 0x81 0x01 0xa3 0 4)) []) }
    ensures answer { bytes_handled 7 (bare_bytes 0x81 0x53 0 0 2) new_one ≡ Done new_one }
    ensures unknown { bytes_handled 7 (bare_bytes 0x80 0x51 0 0 2) new_one ≡ Done (served new_one.session (answers (bare_bytes 0x81 0x51 0x81 0 2))) }
{}

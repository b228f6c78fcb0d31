//! What the protocol says of commands and answers, each law as the contract of a function.
ghost use Rattle.std.specs.Prelude.{◌≡◌, ◌≤◌, ◌∷◌, [], ℕ, List, Bool, Some, None, Ok, Err, length};
ghost use Rattle.{mcbp_frame.specs.declared.frame.Frame.{Frame as Framed}, mcbp_frame.specs.declared.frame.TheConstants.{REQUEST, FRAMED_REQUEST, RESPONSE}};
ghost use Rattle.{mcbp_kv.specs.declared.durable.TheConstants.{DEFAULT_TIMEOUT}, vb_types.specs.declared.change.Level.TheVariants.{Majority, MajorityPersistActive, PersistMajority}};
ghost use Rattle.mcbp_kv.specs.Answers.{AnswersInOrder, IsFound, IsStored, IsWelcome, IsBare, found_answer, stored_answer, seqno_extras, welcome_answer, bare_answer};
ghost use Rattle.{mcbp_kv.specs.Choices.{AcceptsThose, AcceptsFew}, mcbp_kv.specs.Commands.{SpelledIsRead, CommandIsSpelled, ReadFits, TimeoutsFit}, mcbp_kv.specs.Extras.{IsReadAsSpelled}};
ghost use Rattle.{mcbp_kv.specs.Features.{accepted, feature_bytes, feature_code}, mcbp_kv.specs.Framing.{DURABILITY, requirement_of}, mcbp_kv.specs.Refusals.{IsRefusedInOrder}, mcbp_kv.specs.Replies.{reply_frame}};
ghost use Rattle.{mcbp_kv.specs.Durable.{within}, mcbp_kv.specs.Requests.{client_opcodes, write_opcodes, required_of}, mcbp_kv.specs.declared.feature.Feature.{Feature as Chosen}};
ghost use Rattle.mcbp_kv.specs.declared.feature.Feature.TheVariants.{MutationSeqnos, Json, AltRequests, SyncReplication};
ghost use Rattle.{mcbp_kv.specs.declared.opcodes.TheConstants.{GET, SET, ADD, REPLACE, DELETE, NOOP, HELLO}, vb_types.specs.Statuses.{status_code}};
ghost use Rattle.{vb_types.specs.declared.doc.Doc.{Doc as DocData}, vb_types.specs.declared.status.Status.{Status as Said}, vb_types.specs.declared.status.Status.TheVariants.{DurabilityInvalidLevel}};

/// A frame is read as a command exactly where it is spelled as that command, field by field.
pub fn commands_are_spelled()
    ensures read { SpelledIsRead }
    ensures spelled { CommandIsSpelled }
{}

/// What is read of a frame of bytes has its key and value, and numbers that fit their fields.
pub fn requests_fit()
    ensures parts { ReadFits }
    ensures timeouts { TimeoutsFit }
{}

/// A frame is refused for the first reason that there is, and for no other.
pub fn refusals_in_order()
    ensures { (json : Bool) (f : Framed) → IsRefusedInOrder json f }
{}

/// The first framing extra that is faulty decides.
pub fn framing_is_read()
    ensures { IsReadAsSpelled }
{}

/// The features that there are of those asked for, each once and in the order asked.
pub fn features_are_accepted()
    ensures those { AcceptsThose }
    ensures few { AcceptsFew }
{}

/// An answer's fields stand in the protocol's order, and those of each answer are as it says.
pub fn answers_are_spelled()
    ensures order { AnswersInOrder }
    ensures found { (json : Bool) (opaque : ℕ) (doc : DocData) → IsFound json (reply_frame (found_answer json opaque doc)) opaque doc }
    ensures stored { (code opaque cas : ℕ) → IsStored (reply_frame (stored_answer code opaque cas [])) code opaque cas [] }
    ensures told { (code opaque cas uuid seq : ℕ) → IsStored (reply_frame (stored_answer code opaque cas (seqno_extras uuid seq)))
        code opaque cas (seqno_extras uuid seq) }
    ensures sixteen { (uuid seq : ℕ) → length (seqno_extras uuid seq) ≡ 16 }
    ensures welcome { (opaque : ℕ) (features : List Chosen) → IsWelcome (reply_frame (welcome_answer opaque features)) opaque features }
    ensures bare { (code : ℕ) (said : Said) (opaque : ℕ)
        → IsBare (reply_frame (bare_answer code said opaque)) code (status_code said) opaque }
{}

/// The magics, opcodes, features and the id of a durability requirement as numbers.
pub fn opcodes_in_numbers()
    ensures magics { (REQUEST ≡ 0x80) × (FRAMED_REQUEST ≡ 0x08) × (RESPONSE ≡ 0x81) }
    ensures reads { GET ≡ 0x00 }
    ensures writes { (SET ≡ 0x01) × (ADD ≡ 0x02) × (REPLACE ≡ 0x03) × (DELETE ≡ 0x04) }
    ensures others { (NOOP ≡ 0x0a) × (HELLO ≡ 0x1f) }
    ensures all { client_opcodes ≡ GET ∷ NOOP ∷ HELLO ∷ write_opcodes }
    ensures writing { write_opcodes ≡ SET ∷ ADD ∷ REPLACE ∷ DELETE ∷ [] }
    ensures features { (feature_code MutationSeqnos ≡ 0x04) × (feature_code Json ≡ 0x0b)
        × (feature_code AltRequests ≡ 0x10) × (feature_code SyncReplication ≡ 0x11) }
    ensures requirement { DURABILITY ≡ 1 }
{}

/// The timeouts of durable writes as numbers, and the bytes of framing extras that name them and the levels.
#[tactic(auto, unfolding(crate::specs::Framing::requirement_of))]
pub fn durability_in_numbers()
    ensures default { DEFAULT_TIMEOUT ≡ 30000 }
    ensures absent { required_of SET (requirement_of (0x11 ∷ 1 ∷ [])) ≡ Ok (Some (within Majority 30000)) }
    ensures zero { required_of SET (requirement_of (0x13 ∷ 2 ∷ 0 ∷ 0 ∷ [])) ≡ Ok (Some (within MajorityPersistActive 30000)) }
    ensures one { required_of ADD (requirement_of (0x13 ∷ 3 ∷ 0 ∷ 1 ∷ [])) ≡ Ok (Some (within PersistMajority 1)) }
    ensures most { required_of DELETE (requirement_of (0x13 ∷ 1 ∷ 0xff ∷ 0xff ∷ [])) ≡ Ok (Some (within Majority 65535)) }
    ensures high_first { required_of REPLACE (requirement_of (0x13 ∷ 1 ∷ 1 ∷ 2 ∷ [])) ≡ Ok (Some (within Majority 258)) }
    ensures below { required_of SET (requirement_of (0x11 ∷ 0 ∷ [])) ≡ Err DurabilityInvalidLevel }
    ensures above { required_of SET (requirement_of (0x13 ∷ 4 ∷ 0 ∷ 1 ∷ [])) ≡ Err DurabilityInvalidLevel }
{}

/// The answer to a HELLO has two bytes for each feature, the high one first, in the order of the features;
/// and what is asked for twice, or is none, is left out.
#[tactic(auto, unfolding(crate::specs::Features::feature_bytes, crate::specs::Features::accepted))]
pub fn features_in_bytes()
    ensures written { feature_bytes (Json ∷ MutationSeqnos ∷ SyncReplication ∷ AltRequests ∷ []) ≡ 0x00 ∷ 0x0b ∷ 0x00 ∷ 0x04 ∷ 0x00 ∷ 0x11 ∷ 0x00 ∷ 0x10 ∷ [] }
    ensures none { feature_bytes [] ≡ [] }
    ensures asked { accepted (0x00 ∷ 0x11 ∷ 0x00 ∷ 0x0b ∷ 0x0b ∷ 0x00 ∷ 0x00 ∷ 0x11 ∷ 0x00 ∷ 0x02 ∷ []) ≡ SyncReplication ∷ Json ∷ [] }
{}

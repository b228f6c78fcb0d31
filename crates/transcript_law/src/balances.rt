//! What is outstanding at a link's producer.

ghost use Rattle.std.specs.Prelude.{◌≡◌, ◌++◌, List, []};
ghost use Rattle.mcbp_frame.specs.Frames.{frame_len};
ghost use Rattle.mcbp_frame.specs.declared.frame.Frame.{Frame as FrameData};
ghost use Rattle.script_text.specs.Fitting.{ScriptFits};
ghost use Rattle.script_text.specs.declared.verb.ScriptLine.{ScriptLine};
ghost use Rattle.transcript_law.specs.Balance.{AreBalanced, MeansOutstanding, answer_row, acknowledged_by, bytes_row, end_row, longest, marker_row, seqno_row, stream_len};
ghost use Rattle.transcript_law.specs.Prefixes.{world_of};

/// After every line of a script, what is outstanding at the producer of a link with a buffer is the length
/// of the stream's frames that are on their way to its consumer, those half heard included, and what the
/// acknowledgements of bytes on their way back tell.
pub fn windows_balance()
    ensures { (script : List ScriptLine) → ScriptFits script → AreBalanced (world_of script) }
{}

/// With nothing on its ways, nothing is outstanding. A marker on its way, behind an answer, is 44 bytes
/// that are outstanding, and so are they once they were taken, and their acknowledgement is on its way back
/// behind one of a seqno. A marker and a stream's end are 72 bytes, and as many are the acknowledgements
/// of both.
pub fn balances_in_numbers()
    ensures nothing { MeansOutstanding [] [] 0 }
    ensures marker { MeansOutstanding (answer_row ++ marker_row) [] 44 }
    ensures acked { MeansOutstanding [] (seqno_row ++ bytes_row 44) 44 }
    ensures answers { (f : FrameData) → f.magic ≡ 0x81 → (stream_len f ≡ 0) × (acknowledged_by f ≡ 0) }
    ensures states { (f : FrameData) → f.magic ≡ 0x80 → f.opcode ≡ 0x5b → stream_len f ≡ frame_len f }
    ensures limit { longest ≡ 22020120 }
    ensures both { MeansOutstanding (marker_row ++ end_row) (bytes_row 44 ++ bytes_row 28) 144 }
{}

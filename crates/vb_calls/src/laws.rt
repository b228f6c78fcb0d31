//! What holds of the calls.
ghost use Rattle.std.specs.Prelude.{◌≡◌};
ghost use Rattle.vb_calls.specs.declared.span.TheConstants.{MAX_ITEMS, MAX_WEIGHT, BASE_WEIGHT};
ghost use Rattle.vb_calls.specs.Tellings.{AreAnsweredSo, AreReadSo, TakeNoMemory};

/// A span has at most 1000 changes and 32 MiB, where each change counts 64 beside its key and its
/// value.
pub fn limits_in_numbers()
    ensures items { MAX_ITEMS ≡ 1000 }
    ensures weight { MAX_WEIGHT ≡ 33554432 }
    ensures base { BASE_WEIGHT ≡ 64 }
{}

/// Closing a stream, taking its cursor away and a trim take no memory, nor do the calls that only tell
/// what a follower asks for, what is due, and a vBucket's numbers.
pub fn some_calls_take_no_memory()
    ensures { TakeNoMemory }
{}

/// Closing a stream, taking its cursor away and a seal are answered by a flag, a trim by a number, and
/// what is due by two numbers or a status. A request for a stream is answered by what opens one, under
/// a number that is not 0, or by why none is opened. And all of these by nothing else, whoever answers.
pub fn answers_have_forms()
    ensures { AreAnsweredSo }
{}

/// Records that were read come in the order in which they were appended; and each fault of a read is
/// told as itself.
pub fn readings_in_numbers()
    ensures { AreReadSo }
{}

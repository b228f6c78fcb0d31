//! What holds of a storm's seats, here of plain vBuckets: crate `storm` has it of those of code.
ghost use Rattle.std.specs.Prelude.{◌≡◌, ℕ, true};
ghost use Rattle.storm_model.specs.Limits.{is_storm};
ghost use Rattle.storm_seats.specs.Laws.{LoneSeatsAreAnswered, ReadersEnd, SeatsGather, StormsHappen};

/// A seat that has all parts and made all calls is answered as the vBucket that it knows answers.
pub fn lone_seats_are_answered()
    ensures { LoneSeatsAreAnswered }
{}

/// A seat that takes in the seats of all clients, one after the other, has the storm's history, and knows the
/// vBucket that the writes leave, whatever the order in which they were made.
pub fn seats_gather()
    ensures { (seed clients writes v : ℕ) → is_storm clients writes ≡ true → SeatsGather seed clients writes v }
{}

/// A reader that found nothing finds nothing any more, and what one reader takes is the same once the other has
/// read.
pub fn readers_end()
    ensures { ReadersEnd }
{}

/// Each storm may happen: of each vBucket there is a history of it, in which the clients write one after the
/// other.
pub fn storms_happen()
    ensures { (seed clients writes v : ℕ) → is_storm clients writes ≡ true → StormsHappen seed clients writes v }
{}

//! What a crash leaves of a disk in memory, each law as the contract of a function that does nothing.
ghost use Rattle.vb_disk.specs.CrashRows.{ClippedAsSaid, CutsInNumbers, FillsCuts, WritesInNumbers};

/// A crash that fills with a byte leaves of a cut that was not synced as many bytes as it would leave
/// without the cut: the first as they are then, and this byte behind them.
pub fn cuts_are_filled()
    ensures left { FillsCuts }
    ensures one { ClippedAsSaid }
{}

/// What each crash leaves of a cut and of a write that were not synced, and of such as were, as numbers.
pub fn crashes_in_numbers()
    ensures cuts { CutsInNumbers }
    ensures writes { WritesInNumbers }
{}

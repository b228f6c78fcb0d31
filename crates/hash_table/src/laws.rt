//! What holds of every table, as the contract of a function that does nothing.
ghost use Rattle.hash_table.specs.Laws.{SeqnosRise};

/// The prepares that wait are listed each once, by rising seqnos, of equal ones the smaller key first.
pub fn prepares_rise()
    ensures { SeqnosRise }
{}

//! In which order journals are listed, and what is told of a batch, each as the contract of a function
//! that does nothing.
ghost use Rattle.std.specs.Prelude.{◌≡◌, ℕ, length};
ghost use Rattle.vb_calls.specs.{AllSteps.{batch_of_one}, Flushes.{took, took_nothing}};
ghost use Rattle.vb_calls.specs.declared.journals.Flushed.TheVariants.{Took};
ghost use Rattle.vb_types.specs.declared.journal.Batch.{Batch as BatchData};
ghost use Rattle.disk_journals.specs.InOrder.{ListsInOrder};

/// The numbers of the journals that a crash leaves rise in their list, so no number is there twice.
pub fn journals_are_listed_in_order()
    ensures { ListsInOrder }
{}

/// A batch that was taken is told with its snapshot's start and end, with where it ends and with how many
/// changes it has, however many these are; and one that was not with four zeros.
pub fn batches_are_counted()
    ensures one { took batch_of_one ≡ Took 2 8 4 1 }
    ensures many { (b : BatchData) → length b.items ≡ 300 → took b ≡ Took b.position.ss b.position.se b.position.at 300 }
    ensures more { (b : BatchData) → length b.items ≡ 70000 → took b ≡ Took b.position.ss b.position.se b.position.at 70000 }
    ensures each { (b : BatchData) (n : ℕ) → length b.items ≡ n → took b ≡ Took b.position.ss b.position.se b.position.at n }
    ensures none { took_nothing ≡ Took 0 0 0 0 }
{}

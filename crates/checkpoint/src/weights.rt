//! What changes weigh.
ghost use Rattle.std.specs.Prelude.{◌≡◌, ◌≤◌};
ghost use Rattle.vb_types.specs.declared.key.TheConstants.{MAX_VALUE};
ghost use Rattle.vb_calls.specs.Spans.{value_size, change_weight, is_durable};

use vb_calls::{BASE_WEIGHT, MAX_WEIGHT};
use vb_types::{Act, Change};

fn size_of_value(act: &Act) -> u64
    ensures size { result ≡ value_size act.now }
    ensures bounded { result ≤ MAX_VALUE }
{
    match act {
        Act::Set(doc) | Act::Prepare { doc, .. } | Act::Commit { doc, .. } => {
            doc.value.as_slice().len() as u64
        }
        Act::Remove { .. } | Act::Abort { .. } => 0,
    }
}

/// What a change weighs.
pub fn weight_of(change: &Change) -> u64
    ensures weight { result ≡ change_weight change.now }
    ensures bounded { result ≤ MAX_WEIGHT }
{
    BASE_WEIGHT + change.key.as_slice().len() as u64 + size_of_value(&change.act)
}

/// Whether an act is part of a durable write.
pub fn is_part_of_durable(act: &Act) -> bool
    ensures { result ≡ is_durable act.now }
{
    !matches!(act, Act::Set(_) | Act::Remove { .. })
}

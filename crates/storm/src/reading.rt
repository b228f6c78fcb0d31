//! The readers of a vBucket: each takes what its stream gives, and has an image of it.
ghost use Rattle.std.specs.Prelude.{◌≡◌, false, IfOk, OnOk};
ghost use Rattle.std.specs.List.{fold};
ghost use Rattle.vb_calls.specs.Plain.{Plain};
ghost use Rattle.vb_types.specs.Images.{applied, nothing};
ghost use Rattle.storm_model.specs.Sums.{read, taken_in};
ghost use Rattle.storm_seats.specs.Draining.{IsStill, ReadBy, is_taken, read_once, took};
ghost use Rattle.storm.specs.Ending.{IsRead, Reads};

use node_threads::VbSeats;
use std::alloc::{AllocError, Global};
use std::sync::Wait;
use vb_calls::{VbAccess, VbAnswer, VbCall};
use vb_turn::Gate;
use vb_types::{Change, Image};

/// Takes in all of these changes.
fn apply_all(image: &mut Image, changes: &[Change]) -> Result<(), AllocError>
    ensures { OnOk result (image.new ≡ fold applied image.old changes.now) }
{
    for change in changes {
        image.apply(change)?;
    }
    Ok(())
}

/// Takes in what was answered to a take; false where that is nothing.
fn take_in(image: &mut Image, taken: &VbAnswer) -> Result<bool, AllocError>
    ensures image { OnOk result (image.new ≡ taken_in taken.now image.old) }
    ensures more { IfOk result (λ more. more ≡ is_taken taken.now) }
{
    match taken {
        VbAnswer::Taken(snapshot) => {
            apply_all(image, snapshot.items.as_slice())?;
            Ok(true)
        }
        _ => Ok(false),
    }
}

/// Takes the next snapshot of a stream; false where there is none.
fn read_next<W: Wait, G: Gate>(
    seats: &mut VbSeats<'_, W, G>,
    v: u16,
    id: u64,
    image: &mut Image,
) -> Result<bool, AllocError>
    requires { IsRead v seats.old }
    ensures { IfOk result (λ more. (vb : Plain) → Reads v seats.old vb
        → Reads v seats.new (took id vb) × (image.new ≡ read_once id vb image.old) × (more ≡ false → IsStill id vb)) }
{
    let Some(reply) = seats.call(v, VbCall::Take { id })? else {
        unreachable!()
    };
    take_in(image, &reply.answer)
}

/// What a reader has once it took all that there is, which are so many changes: no snapshot is empty, so
/// there are no more snapshots than changes.
pub(crate) fn read_all<W: Wait, G: Gate>(
    alloc: Global,
    seats: &mut VbSeats<'_, W, G>,
    v: u16,
    id: u64,
    count: u64,
) -> Result<Image, AllocError>
    requires { IsRead v seats.old }
    ensures { IfOk result (λ image. (vb : Plain) → Reads v seats.old vb
        → (after : Plain) × Reads v seats.new after × ReadBy id vb after × (image ≡ read count id vb nothing)) }
{
    let mut image = Image::new(alloc);
    for _ in 0..count {
        if !read_next(seats, v, id, &mut image)? {
            return Ok(image);
        }
    }
    Ok(image)
}

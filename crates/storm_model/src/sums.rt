//! The documents of an image in numbers.
ghost use Rattle.std.specs.Prelude.{◌≡◌, ◌%◌, ◌^◌, IfOk, length};
ghost use Rattle.storm_model.specs.Sums.{contents, number_of, told_line, value_sum};

use crate::lines::StormLine;
use std::alloc::{AllocError, Global};
use vb_types::Image;

/// How many documents there are, and the sum of their values.
#[derive(Clone, Copy, Debug, PartialEq, Eq)]
pub struct Contents {
    pub docs: u64,
    pub sum: u64,
}

/// The number that these digits write.
fn number_of(digits: &[u8]) -> u64
    ensures { result ≡ number_of digits.now % 2 ^ 64 }
{
    let mut number: u64 = 0;
    for digit in digits {
        number = number
            .wrapping_mul(10)
            .wrapping_add(u64::from(digit.saturating_sub(48)));
    }
    number
}

/// The documents of an image in numbers.
pub fn summed(alloc: Global, image: &Image) -> Result<Contents, AllocError>
    ensures docs { IfOk result (λ found. found.docs ≡ length (contents image.now)) }
    ensures sum { IfOk result (λ found. found.sum ≡ value_sum (contents image.now)) }
{
    let docs = image.docs().list(alloc)?;
    let mut sum: u64 = 0;
    for &(key, doc) in &docs {
        sum = sum.wrapping_add(number_of(doc.value.as_slice()));
    }
    Ok(Contents {
        docs: docs.len() as u64,
        sum,
    })
}

/// The line of a vBucket with these documents, and of what its two readers have.
pub fn told_line(
    alloc: Global,
    high: u64,
    saved: u64,
    shown: &Image,
    first: &Image,
    second: &Image,
) -> Result<StormLine, AllocError>
    ensures { IfOk result (λ line. line ≡ told_line high saved shown.now first.now second.now) }
{
    let found = summed(alloc, shown)?;
    Ok(StormLine {
        high,
        docs: found.docs,
        sum: found.sum,
        saved,
        read_first: summed(alloc, first)?.sum,
        read_second: summed(alloc, second)?.sum,
    })
}

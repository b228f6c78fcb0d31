//! What the records of a vBucket's journal tell: where its batches ended, what it held then, and what
//! it starts with.
#![tactic(auto)]

mod backfill;
mod ends;
mod images;
mod lasts;
mod laws;
mod saved;
mod standing;

pub use backfill::above;
pub use ends::{points, roll_point};
pub use images::image_at;
pub use laws::{
    images_in_numbers, points_in_numbers, records_tell, rolls_cut, sends_lasts, sends_whole,
    sent_in_numbers, state_in_numbers,
};
pub use saved::{Saved, cas_of_last, state};

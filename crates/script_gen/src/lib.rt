//! Generated scripts: client writes by the numbers of a seed, carried over a link to a replica.
#![tactic(auto)]

mod generator;
mod laws;
mod writes;

pub use generator::Generator;
pub use laws::{
    generated_in_numbers, generated_keys, generated_lines_stand, generated_scripts_are_text,
    generated_writes_ask,
};

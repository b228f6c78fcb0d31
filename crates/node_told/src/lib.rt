//! What the calls of a node come to where others call its vBuckets too. Nothing here runs.
#![tactic(auto)]

mod laws;

pub use laws::{
    answers_are_told, dials_are_told, drops_are_told, dues_are_told, flushes_are_told,
    hearing_calls_nothing, makes_are_told, nodes_over_seats_are_told, operators_are_told,
    outcomes_are_told, pieces_are_told, pulls_are_told, settles_are_told, yields_are_told,
};

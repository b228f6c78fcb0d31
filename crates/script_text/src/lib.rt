//! The texts of a run: a script, which is read line by line, and a transcript, which is printed
//! group by group.
#![tactic(auto)]

mod digits;
mod events;
mod laws;
mod line;
mod numbers;
mod parts;
mod read_events;
mod read_laws;
mod read_lines;
mod read_transcript;
mod read_words;
mod script;
mod sent;
mod transcript;
mod verb;

pub use laws::{
    bytes_are_digits, chains_in_words, durable_writes_in_words, groups_in_letters,
    lines_are_spellings, lines_fit, lines_make_the_script, numbers_are_decimals, print_tells,
    pulls_in_words, savings_in_words, script_or_bad_line, stops_in_words, streams_in_letters,
    transcripts_in_letters, windows_in_words, words_make_the_line,
};
pub use read_laws::{
    bad_lines_break_off, events_are_lines, read_in_letters, transcripts_read_back,
};
pub use read_transcript::{Groups, parse_transcript};
pub use script::{BadLine, ScriptLines, check, parse};
pub use transcript::print;
pub use verb::{ClientVerb, LinkVerb, NodeVerb, Script, ScriptLine, VbVerb, Verb};

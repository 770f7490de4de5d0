//! The rack program's records: how they are read, and the text that answers an input.
#![tactic(auto)]

mod answering;
mod read;
pub mod record;
mod text;

pub use answering::{answer_input, answer_record};

//! The receiving chain: from the points of a burst to its data.
#![tactic(auto)]

mod blocks;
mod decoding;
mod received;
pub mod report;

pub use decoding::decode;

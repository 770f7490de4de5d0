//! The sending chain: from the data of a request to the points of its burst.
#![tactic(auto)]

mod burst;
mod chain;
mod encoding;
mod laws;

pub use chain::{BURST_BITS, MESSAGE_BYTES, block_bytes, interleaver, periods, register};
pub use encoding::{burst_bits, encode};
pub use laws::{bursts_are_lawful, worked_cases};

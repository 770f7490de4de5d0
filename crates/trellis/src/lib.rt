//! One search for every trellis: the least cost of a path, and the first path of that cost where it is wanted.
#![tactic(auto)]

mod costs;
mod ends;
mod lane;
mod searching;
mod survivors;
mod trellis;

pub use searching::{PATH_BITS, WORK_WORDS, search};
pub use trellis::{Branch, Entry, Trellis};

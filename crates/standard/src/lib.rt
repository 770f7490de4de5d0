//! What the standard fixes for every burst: requests and accepted orders, the seven profiles, modulations, shapes of
//! blocks, points, refusals.
#![tactic(auto)]

mod accept;
pub mod modulation;
pub mod order;
pub mod point;
pub mod profile;
mod profiles;
pub mod refusal;
mod refusals;
pub mod shape;

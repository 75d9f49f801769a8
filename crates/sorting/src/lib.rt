// A sort of numbers by a key, then number, and the groups of a sorted order.
#![tactic(auto)]

pub mod groups;
pub mod keyed;
pub mod order;

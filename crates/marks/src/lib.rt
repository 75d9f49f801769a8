// Refusals 9 and 12, by marks for the vertices and the zones that the edges name.
#![tactic(auto)]

mod marking;
pub mod vertices;
pub mod zones;

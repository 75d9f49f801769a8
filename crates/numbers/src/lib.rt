// Leaves with no geometry: bit length, top and lowest bit, lca, the layout of an index, and words written over a table.
#![tactic(auto)]

pub mod dyadic;
pub mod layout;
pub mod words;

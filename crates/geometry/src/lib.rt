// Edges with their ends: covering, the side of a point, two edges in conflict, the lower of two edges beside a vertex. Nothing else
// multiplies coordinates.
#![tactic(auto)]

pub mod lines;

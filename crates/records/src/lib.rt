// The written rules, record by record: refusals 4, 6, 7 and 8, each as the lowest record at fault; and what they ask of a point or a
// record.
#![tactic(auto)]

pub mod edges;
pub mod vertices;

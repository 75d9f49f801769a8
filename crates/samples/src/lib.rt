// The samples of a month: what is lent with enough room, what is at fault with it, where the samples lie, the lists and the zones by
// that.
#![tactic(auto)]

pub mod faults;
pub mod lists;
pub mod places;
pub mod room;
pub mod zones;

// Where a sample lies.
#[derive(Clone, Copy, Debug, PartialEq, Eq)]
pub enum Spot {
    // It is not taken.
    Untaken,
    // It is on an edge or vertex.
    Boundary,
    // 20 turns it away.
    OffSheet,
    // It is in this zone.
    Zone(u32),
}

ghost use Rattle.std.specs.Prelude.{◌≡◌, ℕ, ◌/◌, length, unwrap_or, IfSome};
ghost use Rattle.subdivision.specs.Formula.{holds};
ghost use Rattle.subdivision.specs.Lowest.{found};
ghost use Rattle.scans.specs.Scans.{lower_between, is_beneath, takes_over, edge_beneath, zone_from};

use crate::Scan;
use geometry::lines::{covers, lower_beside, side};
use subdivision::{Segment, Side};
use tables::edge_above;

// Of two edges that do not conflict and overlap, g is the lower on every line between the ends of the
// overlap: decided by side tests of vertices at those ends.
fn lower_between(g: Segment, h: Segment) -> bool
    ensures { result ≡ holds (lower_between g h) }
{
    lower_beside(false, g, h) || lower_beside(true, g, h)
}

impl<'a> Scan<'a> {
    // Whether edge e covers x and is strictly below the point.
    fn is_beneath(self, e: u32) -> bool
        ensures { result ≡ holds (is_beneath self.entry.tables.vertices.now self.entry.tables.edges.now self.entry.x self.entry.y self.entry.margin e) }
    {
        let g = self.tables.segment(e);
        covers(self.margin, g, self.x) && side(g, self.x, self.y) == Side::Above
    }

    // Whether edge e takes the place of the highest edge beneath the point so far.
    fn takes_over(self, best: Option<u32>, e: u32) -> bool
        ensures { (none : ℕ) → IfSome best (λ b. b ≡ none → ⊥) → result ≡ holds (takes_over self.entry.tables.vertices.now self.entry.tables.edges.now self.entry.x self.entry.y self.entry.margin none (unwrap_or best none) e) }
    {
        self.is_beneath(e)
            && match best {
                Some(b) => lower_between(self.tables.segment(b), self.tables.segment(e)),
                None => true,
            }
    }

    // The highest edge beneath the point.
    fn edge_beneath(self) -> Option<u32>
        ensures { result ≡ found (length self.entry.tables.edges.now / 4) (edge_beneath self.entry.tables.vertices.now self.entry.tables.edges.now self.entry.x self.entry.y self.entry.margin) }
    {
        let count = self.tables.edge_count() as u32;
        let mut best = None;
        for e in 0..count {
            if self.takes_over(best, e) {
                best = Some(e);
            }
        }
        best
    }

    // The zone above the highest edge beneath the point; with none, `first`, the first zone of the line.
    pub(crate) fn zone_beneath(self, first: u32) -> u32
        ensures { result ≡ zone_from self.entry.tables.vertices.now self.entry.tables.edges.now self.entry.x self.entry.y self.entry.margin first }
    {
        match self.edge_beneath() {
            Some(e) => edge_above(self.tables.edges, e),
            None => first,
        }
    }
}

ghost use Rattle.std.specs.Prelude.{◌≡◌, ◌≤◌};
ghost use Rattle.subdivision.specs.Limits.{max_edges};
ghost use Rattle.subdivision.specs.Formula.{holds};
ghost use Rattle.subdivision.specs.Descent.{probe};
ghost use Rattle.probes.specs.Asked.{asked, looked_up};
ghost use Rattle.probes.specs.Judged.{runs_inside, judged_look};

use crate::Query;
use geometry::lines::covers;
use records::edges::edge_names;
use records::vertices::point_inside;
use subdivision::{Look, Probed, Segment};

// Whether both ends of an edge are in range and between the margins, and it runs strictly west to east.
fn runs_inside(west: u32, east: u32, g: Segment) -> bool
    ensures { result ≡ holds (runs_inside west east g) }
{
    point_inside(west, east, g.xw, g.yw) && point_inside(west, east, g.xe, g.ye) && g.xw < g.xe
}

impl<'a> Query<'a> {
    // One look at entry e of a chain, against the abscissa x.
    fn look(&self, e: u32) -> Look
        ensures { result ≡ judged_look (asked self.now) self.now.x e }
    {
        if self.tables.edge_count() <= e as usize || !edge_names(self.tables, self.zones, e) {
            return Look::Faulty;
        }
        let g = self.tables.known_segment(e);
        if !runs_inside(self.west, self.east, g) {
            return Look::Faulty;
        }
        if self.x < g.xw {
            return Look::West;
        }
        if covers(self.east, g, self.x) {
            return Look::Covering;
        }
        Look::Beyond
    }

    // Probes the entries from `from` to before `to` for the edge that covers x, in the middle, rounded
    // down; `made` probes were made before.
    pub fn probe(&self, from: u32, to: u32, made: u32) -> Option<Probed>
        requires { (to ≤ max_edges) × (made ≤ 2147483648) }
        ensures { result ≡ probe (asked self.now) (looked_up self.now) self.now.x to from to made }
    {
        let mut lo = from;
        let mut hi = to;
        let mut probes = made;
        // A bisection moves one of two ends, so that no index counts.
        while lo < hi {
            let mid = (lo + hi) / 2;
            let edge = self.entry_at(mid);
            let seen = self.look(edge);
            probes += 1;
            match seen {
                Look::Faulty => return None,
                Look::West => hi = mid,
                Look::Covering => return Some(Probed { edge, probes }),
                Look::Beyond => lo = mid + 1,
            }
        }
        None
    }
}

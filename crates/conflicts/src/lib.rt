// Rule 4 over all pairs of edges: refusal 10.
#![tactic(auto)]

ghost use Rattle.std.specs.Prelude.{◌≡◌, not, ℕ, ◌<◌};
ghost use Rattle.subdivision.specs.Formula.{holds};
ghost use Rattle.subdivision.specs.Lowest.{first};
ghost use Rattle.subdivision.specs.Rules.{edge_clear};
ghost use Rattle.tables.specs.Known.{EndsKnown};
ghost use Rattle.tables.specs.Lent.{drawn};

use geometry::lines::conflict;
use tables::Tables;

// The lowest of the first `count` edges, which are there with their vertices, that is in conflict with a lower-numbered one.
pub fn first_conflict(tables: Tables, count: u32) -> Option<u32>
    requires { (e : ℕ) → e < count → EndsKnown tables.vertices.now tables.edges.now e }
    ensures { result ≡ first (λ e. not (holds (edge_clear (drawn tables.entry) e))) count }
{
    let mut lowest = None;
    // Document 01 names this form: nested loops over the pairs, left from inside by a label once the lowest edge in conflict is known.
    'pairs: for e in 0..count {
        let h = tables.known_segment(e);
        for f in 0..e {
            let g = tables.known_segment(f);
            if conflict(g, h) {
                lowest = Some(e);
                break 'pairs;
            }
        }
    }
    lowest
}

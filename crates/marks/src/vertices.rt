ghost use Rattle.std.specs.Prelude.{◌≡◌, not, ◌≤◌, ◌/◌, length};
ghost use Rattle.subdivision.specs.Limits.{max_vertices, max_edges};
ghost use Rattle.subdivision.specs.Formula.{holds};
ghost use Rattle.subdivision.specs.Lowest.{first};
ghost use Rattle.subdivision.specs.Rules.{vertex_regular};
ghost use Rattle.tables.specs.Lent.{lent};
ghost use Rattle.marks.specs.Regular.{regular};

use crate::marking::{Word, is_marked, mark_named};
use subdivision::MAX_VERTICES;
use tables::{LentSheet, shifted, vertex_x};

// Refusal 9: the lowest vertex that breaks rule 3.
pub fn first_irregular(sheet: LentSheet) -> Option<u32>
    requires { (length sheet.tables.vertices.now / 2 ≤ max_vertices) × (length sheet.tables.edges.now / 4 ≤ max_edges) }
    ensures { result ≡ first (λ v. not (holds (vertex_regular (lent sheet.entry) v))) (length sheet.entry.tables.vertices.now / 2) }
{
    let west = shifted(sheet.west);
    let east = shifted(sheet.east);
    let tables = sheet.tables;
    // A fixed buffer: no heap, memory of a known size.
    let mut western = [false; MAX_VERTICES];
    let mut eastern = [false; MAX_VERTICES];
    mark_named(tables.edges, Word::EasternVertex, &mut western);
    mark_named(tables.edges, Word::WesternVertex, &mut eastern);
    (0..tables.vertex_count() as u32).find(|v| {
        let x = vertex_x(tables.vertices, *v);
        !is_regular(
            west,
            east,
            x,
            is_marked(&western, *v),
            is_marked(&eastern, *v),
        )
    })
}

// Whether a vertex at x keeps rule 3, by whether it has an edge on its west and one on its east.
#[tactic(auto, unfolding(crate::specs::Regular::regular))]
fn is_regular(west: u32, east: u32, x: u32, western: bool, eastern: bool) -> bool
    ensures { result ≡ regular west east x western eastern }
{
    (x <= west || east <= x || western && eastern)
        && (x != west || eastern)
        && (x != east || western)
}

ghost use Rattle.std.specs.Prelude.{◌≡◌, not, [], ◌<◌, ◌≤◌, ◌/◌, pos, length};
ghost use Rattle.subdivision.specs.Formula.{holds};
ghost use Rattle.subdivision.specs.Lowest.{first};
ghost use Rattle.subdivision.specs.Sheet.{sheet_of};
ghost use Rattle.subdivision.specs.Rules.{edge_names, edge_runs, zones_differ};
ghost use Rattle.tables.specs.Lent.{drawn};

use tables::{
    Tables, edge_above, edge_below, edge_east, edge_west, known_above, known_below, known_east,
    known_west, vertex_x,
};

// Refusal 6: the lowest of the first `count` edges that names what isn't there.
pub fn first_misnamed(tables: Tables, zones: u32, count: u32) -> Option<u32>
    requires { count ≤ length tables.edges.now / 4 }
    ensures { result ≡ first (λ e. not (holds (edge_names (sheet_of (pos 0) (pos 0) tables.entry.vertices.now tables.entry.edges.now zones) e))) count }
{
    (0..count).find(|e| !edge_names(tables, zones, *e))
}

// Whether edge e, which is there, names vertices and zones that exist.
pub fn edge_names(tables: Tables, zones: u32, e: u32) -> bool
    requires { e < length tables.edges.now / 4 }
    ensures { result ≡ holds (edge_names (sheet_of (pos 0) (pos 0) tables.entry.vertices.now tables.entry.edges.now zones) e) }
{
    let count = tables.vertex_count();
    (known_west(tables.edges, e) as usize) < count
        && (known_east(tables.edges, e) as usize) < count
        && known_above(tables.edges, e) < zones
        && known_below(tables.edges, e) < zones
}

// Refusal 7: the lowest of the first `count` edges that does not run strictly west to east.
pub fn first_backward(tables: Tables, count: u32) -> Option<u32>
    ensures { result ≡ first (λ e. not (holds (edge_runs (drawn tables.entry) e))) count }
{
    (0..count).find(|e| !edge_runs(tables, *e))
}

// Whether edge e runs strictly west to east.
fn edge_runs(tables: Tables, e: u32) -> bool
    ensures { result ≡ holds (edge_runs (drawn tables.entry) e) }
{
    let west = vertex_x(tables.vertices, edge_west(tables.edges, e));
    let east = vertex_x(tables.vertices, edge_east(tables.edges, e));
    west < east
}

// Refusal 8: the lowest of the first `count` edges with the same zone on both sides.
pub fn first_one_zoned(edges: &[u32], count: u32) -> Option<u32>
    ensures { result ≡ first (λ e. not (holds (zones_differ (sheet_of (pos 0) (pos 0) [] edges.now 0) e))) count }
{
    (0..count).find(|e| !zones_differ(edges, *e))
}

// Whether edge e has different zones above and below.
fn zones_differ(edges: &[u32], e: u32) -> bool
    ensures { result ≡ holds (zones_differ (sheet_of (pos 0) (pos 0) [] edges.now 0) e) }
{
    edge_above(edges, e) != edge_below(edges, e)
}

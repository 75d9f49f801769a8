// Refusal 1's limits: how many vertices, edges and zones a sheet may have, how many a program with fixed buffers holds, and tables of
// whole records.
#![tactic(auto)]

ghost use Rattle.std.specs.Prelude.{◌≡◌, pos};
ghost use Rattle.subdivision.specs.Limits.{program_limits, count_limits};
ghost use Rattle.subdivision.specs.Formula.{holds};
ghost use Rattle.subdivision.specs.Sheet.{sheet_of};
ghost use Rattle.subdivision.specs.Refusals.{counts_within_under, counts_within, counts_kept};

use subdivision::{HELD_EDGES, HELD_VERTICES, HELD_ZONES, MAX_EDGES, MAX_VERTICES, MAX_ZONES};
use tables::Tables;

// At most so many vertices, edges and zones.
#[derive(Clone, Copy)]
struct Most {
    vertices: usize,
    edges: usize,
    zones: usize,
}

// The tables are whole records, and no count is beyond its limit.
pub fn counts_kept(tables: Tables, zones: u32) -> bool
    ensures { result ≡ holds (counts_kept (sheet_of (pos 0) (pos 0) tables.entry.vertices.now tables.entry.edges.now zones)) }
{
    tables.vertices.len() % 2 == 0
        && tables.edges.len() % 4 == 0
        && counts_within(tables.vertex_count(), tables.edge_count(), zones)
}

// So many vertices, edges and zones are within their limits. This one and `counts_held` are `at_most` of other limits.
pub fn counts_within(vertices: usize, edges: usize, zones: u32) -> bool
    ensures { result ≡ holds (counts_within vertices edges zones) }
{
    let most = Most {
        vertices: MAX_VERTICES,
        edges: MAX_EDGES,
        zones: MAX_ZONES,
    };
    at_most(most, vertices, edges, zones)
}

// So many vertices, edges and zones are no more than a program with fixed buffers holds.
pub fn counts_held(vertices: usize, edges: usize, zones: u32) -> bool
    ensures { result ≡ holds (counts_within_under program_limits vertices edges zones) }
{
    let most = Most {
        vertices: HELD_VERTICES,
        edges: HELD_EDGES,
        zones: HELD_ZONES,
    };
    at_most(most, vertices, edges, zones)
}

// No more vertices, edges and zones than `most`, and one zone or more.
fn at_most(most: Most, vertices: usize, edges: usize, zones: u32) -> bool
    ensures { result ≡ holds (counts_within_under (count_limits most.vertices most.edges most.zones) vertices edges zones) }
{
    vertices <= most.vertices && edges <= most.edges && 1 <= zones && zones as usize <= most.zones
}

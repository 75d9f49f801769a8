// The scans of the plain reading: the vertex or the edge that a point is on, the highest edge beneath it, and the answer made of them.
#![tactic(auto)]

mod beneath;
mod points;

ghost use Rattle.std.specs.Prelude.{◌≤◌, ◌/◌, length};
ghost use Rattle.subdivision.specs.Limits.{max_vertices, max_edges};

use tables::Tables;

// A point to be placed on a sheet: the sheet's eastern margin, its tables, whose counts are within the limits, and the point; the
// coordinates are shifted.
#[derive(Clone, Copy)]
pub struct Scan<'a> {
    pub margin: u32,
    pub tables: Tables<'a>,
    pub x: u32,
    pub y: u32,
    ghost within: { (length tables.vertices.now / 2 ≤ max_vertices) × (length tables.edges.now / 4 ≤ max_edges) },
}

// The lent tables read by number: words with a default past the end, shifted coordinates, edges with their ends.
#![tactic(auto)]

ghost use Rattle.std.specs.Prelude.{◌≡◌, pos, ◌<◌, ◌/◌, length, get_or};
ghost use Rattle.subdivision.specs.Sheet.{shifted, vertex_x, vertex_y, edge_west, edge_east, edge_above, edge_below, segment_of};
ghost use Rattle.tables.specs.Known.{EndsKnown};

use subdivision::Segment;

// The two tables of a sheet as they are lent.
#[derive(Clone, Copy)]
pub struct Tables<'a> {
    // The x and the y of each vertex.
    pub vertices: &'a [i32],
    // The western vertex, the eastern vertex, the zone above and the zone below of each edge.
    pub edges: &'a [u32],
}

// A sheet as it is lent: its margins, its tables and its number of zones.
#[derive(Clone, Copy)]
pub struct LentSheet<'a> {
    pub west: i32,
    pub east: i32,
    pub tables: Tables<'a>,
    pub zones: u32,
}

impl<'a> Tables<'a> {
    // V, the number of vertices.
    pub fn vertex_count(self) -> usize
        ensures { result ≡ length self.entry.vertices.now / 2 }
    {
        self.vertices.len() / 2
    }

    // m, the number of edges.
    pub fn edge_count(self) -> usize
        ensures { result ≡ length self.entry.edges.now / 4 }
    {
        self.edges.len() / 4
    }

    // Edge e with its ends.
    pub fn segment(self, e: u32) -> Segment
        ensures { result ≡ segment_of self.entry.vertices.now self.entry.edges.now e }
    {
        let west = edge_west(self.edges, e);
        let east = edge_east(self.edges, e);
        Segment {
            west,
            east,
            xw: vertex_x(self.vertices, west),
            yw: vertex_y(self.vertices, west),
            xe: vertex_x(self.vertices, east),
            ye: vertex_y(self.vertices, east),
        }
    }

    // Edge e with its ends, where the edge and both of its vertices are known to be there: nothing is tested, which is all that
    // `segment` does besides.
    pub fn known_segment(self, e: u32) -> Segment
        requires { EndsKnown self.vertices.now self.edges.now e }
        ensures { result ≡ segment_of self.entry.vertices.now self.entry.edges.now e }
    {
        let west = known_west(self.edges, e);
        let east = known_east(self.edges, e);
        Segment {
            west,
            east,
            xw: known_x(self.vertices, west),
            yw: known_y(self.vertices, west),
            xe: known_x(self.vertices, east),
            ye: known_y(self.vertices, east),
        }
    }
}

// A signed coordinate as an unsigned one, order and differences kept.
pub fn shifted(v: i32) -> u32
    ensures { result ≡ shifted v }
{
    (v as i64 + 2147483648) as u32
}

// The coordinate at a place of the vertices, shifted: that of 0 past their end.
fn coordinate(vertices: &[i32], at: usize) -> u32
    ensures { result ≡ shifted (get_or vertices.now at (pos 0)) }
{
    shifted(vertices.get(at).copied().unwrap_or(0))
}

// The coordinate at a place of the vertices that is known to be there, shifted.
fn known_coordinate(vertices: &[i32], at: usize) -> u32
    requires { at < length vertices.now }
    ensures { result ≡ shifted (get_or vertices.now at (pos 0)) }
{
    shifted(vertices[at])
}

// The word at a place of a table: 0 past its end.
pub fn word(table: &[u32], at: usize) -> u32
    ensures { result ≡ get_or table.now at 0 }
{
    table.get(at).copied().unwrap_or(0)
}

// The x of vertex v, shifted.
pub fn vertex_x(vertices: &[i32], v: u32) -> u32
    ensures { result ≡ vertex_x vertices.now v }
{
    coordinate(vertices, 2 * (v as usize))
}

// The y of vertex v, shifted.
pub fn vertex_y(vertices: &[i32], v: u32) -> u32
    ensures { result ≡ vertex_y vertices.now v }
{
    coordinate(vertices, 2 * (v as usize) + 1)
}

// Each word of an edge has a function of its own, tested and known to be there: its contract names document 01's word, and one function
// with the word as a parameter is no plainer, because each contract would choose the word by cases.

// The western vertex of edge e.
pub fn edge_west(edges: &[u32], e: u32) -> u32
    ensures { result ≡ edge_west edges.now e }
{
    word(edges, 4 * (e as usize))
}

// The eastern vertex of edge e.
pub fn edge_east(edges: &[u32], e: u32) -> u32
    ensures { result ≡ edge_east edges.now e }
{
    word(edges, 4 * (e as usize) + 1)
}

// The zone above edge e.
pub fn edge_above(edges: &[u32], e: u32) -> u32
    ensures { result ≡ edge_above edges.now e }
{
    word(edges, 4 * (e as usize) + 2)
}

// The zone below edge e.
pub fn edge_below(edges: &[u32], e: u32) -> u32
    ensures { result ≡ edge_below edges.now e }
{
    word(edges, 4 * (e as usize) + 3)
}

// The western vertex of edge e, which is known to be there.
pub fn known_west(edges: &[u32], e: u32) -> u32
    requires { e < length edges.now / 4 }
    ensures { result ≡ edge_west edges.now e }
{
    edges[4 * (e as usize)]
}

// The eastern vertex of edge e, which is known to be there.
pub fn known_east(edges: &[u32], e: u32) -> u32
    requires { e < length edges.now / 4 }
    ensures { result ≡ edge_east edges.now e }
{
    edges[4 * (e as usize) + 1]
}

// The zone above edge e, which is known to be there.
pub fn known_above(edges: &[u32], e: u32) -> u32
    requires { e < length edges.now / 4 }
    ensures { result ≡ edge_above edges.now e }
{
    edges[4 * (e as usize) + 2]
}

// The zone below edge e, which is known to be there.
pub fn known_below(edges: &[u32], e: u32) -> u32
    requires { e < length edges.now / 4 }
    ensures { result ≡ edge_below edges.now e }
{
    edges[4 * (e as usize) + 3]
}

// The x of vertex v, which is known to be there, shifted.
fn known_x(vertices: &[i32], v: u32) -> u32
    requires { v < length vertices.now / 2 }
    ensures { result ≡ vertex_x vertices.now v }
{
    known_coordinate(vertices, 2 * (v as usize))
}

// The y of vertex v, which is known to be there, shifted.
fn known_y(vertices: &[i32], v: u32) -> u32
    requires { v < length vertices.now / 2 }
    ensures { result ≡ vertex_y vertices.now v }
{
    known_coordinate(vertices, 2 * (v as usize) + 1)
}

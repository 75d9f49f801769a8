ghost use Rattle.std.specs.Prelude.{◌≡◌, ◌/◌, length};
ghost use Rattle.subdivision.specs.Formula.{holds};
ghost use Rattle.subdivision.specs.Lowest.{found};
ghost use Rattle.subdivision.specs.Lines.{is_on};
ghost use Rattle.scans.specs.Scans.{vertex_at, edge_on, placed};

use crate::Scan;
use geometry::lines::side;
use subdivision::{Answer, Segment, Side};
use tables::{vertex_x, vertex_y};

// Whether the point lies on an edge, its ends included.
fn is_on(g: Segment, x: u32, y: u32) -> bool
    ensures { result ≡ holds (is_on g x y) }
{
    (g.xw..=g.xe).contains(&x) && side(g, x, y) == Side::On
}

impl<'a> Scan<'a> {
    // The lowest vertex that is the point.
    fn vertex_at(self) -> Option<u32>
        ensures { result ≡ found (length self.entry.tables.vertices.now / 2) (vertex_at self.entry.tables.vertices.now self.entry.x self.entry.y) }
    {
        let vertices = self.tables.vertices;
        let count = self.tables.vertex_count() as u32;
        (0..count).find(|v| vertex_x(vertices, *v) == self.x && vertex_y(vertices, *v) == self.y)
    }

    // The lowest edge that the point lies on.
    fn edge_on(self) -> Option<u32>
        ensures { result ≡ found (length self.entry.tables.edges.now / 4) (edge_on self.entry.tables.vertices.now self.entry.tables.edges.now self.entry.x self.entry.y) }
    {
        let count = self.tables.edge_count() as u32;
        (0..count).find(|e| is_on(self.tables.segment(*e), self.x, self.y))
    }

    // The vertex that the point equals, else the edge that it lies on, else the zone read from beneath, where `first` is the first zone
    // of the line.
    pub fn place(self, first: u32) -> Answer
        ensures { result ≡ placed self.entry.tables.vertices.now self.entry.tables.edges.now self.entry.x self.entry.y self.entry.margin first }
    {
        if let Some(v) = self.vertex_at() {
            return Answer::Vertex(v);
        }
        if let Some(e) = self.edge_on() {
            return Answer::Edge(e);
        }
        Answer::Zone(self.zone_beneath(first))
    }
}

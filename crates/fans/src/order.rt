ghost use Rattle.std.specs.Prelude.{◌≡◌, true, false, ◌+◌, ◌<◌, ◌≤◌, ◌/◌, length};
ghost use Rattle.subdivision.specs.Limits.{max_vertices, max_edges};
ghost use Rattle.fans.specs.Fans.{AreFans, fan_end, fan_of};

use subdivision::MAX_EDGES;
use tables::{Tables, edge_east, edge_west, word};

// The fans of one side: the edges in order of their fans there, and where the fan of each vertex starts in that order.
#[derive(Clone, Copy)]
pub struct Fans<'a> {
    pub edges: &'a [u32],
    pub eastern: bool,
    pub order: &'a [u32],
    pub starts: &'a [u32],
    pub ghost are_fans: { AreFans edges.now eastern order.now starts.now },
}

impl<'a> Fans<'a> {
    // The fans of one side, with room lent for the order of all edges and for the starts. `eastern` is the side, as in the
    // definitions, and the order and its starts become the fields of the struct.
    pub fn sorted(
        edges: &'a [u32],
        eastern: bool,
        order: &'a mut [u32],
        starts: &'a mut [u32],
    ) -> Self
        requires order_len { (length order.old ≡ length edges.now / 4) × (length edges.now / 4 ≤ max_edges) }
        requires starts_len { length starts.old ≤ max_vertices + 1 }
        ensures { (result.edges.now ≡ edges.now) × (result.eastern ≡ eastern) × (length result.starts.now ≡ length starts.old) }
    {
        sorting::keyed::group_by_key::<MAX_EDGES, _>(
            |e| end_of(edges, eastern, e) as u64 * 4294967296,
            order,
            starts,
        );
        Fans {
            edges,
            eastern,
            order,
            starts,
        }
    }

    // The fan of vertex v on this side.
    pub fn fan(self, v: u32) -> &'a [u32]
        requires { v + 1 < length self.starts.now }
        ensures { result.now ≡ fan_of self.entry.edges.now self.entry.eastern v }
    {
        let k = v as usize;
        let from = word(self.starts, k) as usize;
        let to = word(self.starts, k + 1) as usize;
        &self.order[from..to]
    }
}

// The tables of a sheet with the fans of every vertex on both sides.
#[derive(Clone, Copy)]
pub struct BothSides<'a> {
    pub tables: Tables<'a>,
    pub western: Fans<'a>,
    pub eastern: Fans<'a>,
    pub ghost western_of: { (western.edges.now ≡ tables.edges.now) × (western.eastern ≡ false) },
    pub ghost eastern_of: { (eastern.edges.now ≡ tables.edges.now) × (eastern.eastern ≡ true) },
    pub ghost every_vertex: { (length tables.vertices.now / 2 < length western.starts.now) × (length tables.vertices.now / 2 < length eastern.starts.now) },
}

// The end of edge e by which it belongs to a fan: its western vertex has it in the eastern fan, its
// eastern vertex in the western one.
fn end_of(edges: &[u32], eastern: bool, e: u32) -> u32
    ensures { result ≡ fan_end edges.now eastern e }
{
    if eastern {
        edge_west(edges, e)
    } else {
        edge_east(edges, e)
    }
}

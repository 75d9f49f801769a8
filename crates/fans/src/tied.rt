ghost use Rattle.std.specs.Prelude.{◌≡◌};
ghost use Rattle.subdivision.specs.Formula.{holds};
ghost use Rattle.fans.specs.Fans.{is_under, goes_on, furthest, nearer, next_in, tied, fan_tied, fans_tied, vertex_tied, margin_tied, zone_beside};

// `eastern` and `up` are arguments of the definitions too. A closure in their place is no plainer: each contract
// below would have to say what it gives.

use geometry::lines::lower_beside;
use tables::{Tables, edge_above, edge_below, word};

// Rule 5 at a vertex, from its two fans, but for the margin.
pub fn vertex_tied(tables: Tables, western: &[u32], eastern: &[u32]) -> bool
    ensures { result ≡ holds (vertex_tied tables.entry.vertices.now tables.entry.edges.now western.now eastern.now) }
{
    fan_tied(tables, false, western)
        && fan_tied(tables, true, eastern)
        && fans_tied(tables, western, eastern)
}

// Rule 5 on the margin, from the eastern fans of two vertices, one over the other.
pub fn margin_tied(tables: Tables, under: &[u32], over: &[u32]) -> bool
    ensures { result ≡ holds (margin_tied tables.entry.vertices.now tables.entry.edges.now under.now over.now) }
{
    under.is_empty()
        || over.is_empty()
        || outer_zone(tables, true, true, under) == outer_zone(tables, true, false, over)
}

// Rule 5 in a fan: from bottom to top, each edge's zone above is the next one's zone below.
fn fan_tied(tables: Tables, eastern: bool, fan: &[u32]) -> bool
    ensures { result ≡ holds (fan_tied tables.entry.vertices.now tables.entry.edges.now eastern fan.now) }
{
    fan.iter().all(|e| is_tied(tables, eastern, fan, *e))
}

// Rule 5 between the fans of a vertex: the two tops have the same zone above, the two bottoms the same zone below.
fn fans_tied(tables: Tables, western: &[u32], eastern: &[u32]) -> bool
    ensures { result ≡ holds (fans_tied tables.entry.vertices.now tables.entry.edges.now western.now eastern.now) }
{
    western.is_empty()
        || eastern.is_empty()
        || (outer_zone(tables, false, true, western) == outer_zone(tables, true, true, eastern)
            && outer_zone(tables, false, false, western)
                == outer_zone(tables, true, false, eastern))
}

// The zone above the top edge (up) of a fan, or the one below its bottom edge.
fn outer_zone(tables: Tables, eastern: bool, up: bool, fan: &[u32]) -> u32
    ensures { result ≡ zone_beside tables.entry.edges.now up (furthest tables.entry.vertices.now tables.entry.edges.now eastern up fan.now) }
{
    let e = furthest(tables, eastern, up, fan);
    zone_beside(tables.edges, up, e)
}

// The zone above edge e, or the one below it. Like `end_of` in shape alone: they share no word of an edge.
fn zone_beside(edges: &[u32], above: bool, e: u32) -> u32
    ensures { result ≡ zone_beside edges.now above e }
{
    if above {
        edge_above(edges, e)
    } else {
        edge_below(edges, e)
    }
}

// Edge e is the top of its fan, or its zone above is the next one's zone below.
fn is_tied(tables: Tables, eastern: bool, fan: &[u32], e: u32) -> bool
    ensures { result ≡ holds (tied tables.entry.vertices.now tables.entry.edges.now eastern fan.now e) }
{
    let next = next_in(tables, eastern, fan, e);
    next == e || edge_above(tables.edges, e) == edge_below(tables.edges, next)
}

// The top edge (up) or the bottom edge of a fan; 0 of an empty fan.
fn furthest(tables: Tables, eastern: bool, up: bool, fan: &[u32]) -> u32
    ensures { result ≡ furthest tables.entry.vertices.now tables.entry.edges.now eastern up fan.now }
{
    fan.iter().fold(
        word(fan, 0),
        |best, e| if goes_on(tables, eastern, up, best, *e) {
            *e
        } else {
            best
        },
    )
}

// The next edge up from e in a fan; e itself where none is, as in the definition: an `Option` would be undone at each step of the fold.
fn next_in(tables: Tables, eastern: bool, fan: &[u32], e: u32) -> u32
    ensures { result ≡ next_in tables.entry.vertices.now tables.entry.edges.now eastern fan.now e }
{
    fan.iter()
        .fold(e, |best, f| nearer(tables, eastern, e, best, *f))
}

// Of the next edge up found so far (e itself where none is) and edge f, the next one up from e.
fn nearer(tables: Tables, eastern: bool, e: u32, best: u32, f: u32) -> u32
    ensures { result ≡ nearer tables.entry.vertices.now tables.entry.edges.now eastern e best f }
{
    if is_under(tables, eastern, e, f) && (best == e || is_under(tables, eastern, f, best)) {
        f
    } else {
        best
    }
}

// Edge f is further up than edge e (up), or further down.
fn goes_on(tables: Tables, eastern: bool, up: bool, e: u32, f: u32) -> bool
    ensures { result ≡ goes_on tables.entry.vertices.now tables.entry.edges.now eastern up e f }
{
    if up {
        is_under(tables, eastern, e, f)
    } else {
        is_under(tables, eastern, f, e)
    }
}

// Edge e is lower than edge f beside the vertex of their fan.
fn is_under(tables: Tables, eastern: bool, e: u32, f: u32) -> bool
    ensures { result ≡ is_under tables.entry.vertices.now tables.entry.edges.now eastern e f }
{
    lower_beside(eastern, tables.segment(e), tables.segment(f))
}

ghost use Rattle.std.specs.Prelude.{◌≡◌, ◌*◌, ◌<◌, ltb};
ghost use Rattle.subdivision.specs.Formula.{holds};
ghost use Rattle.subdivision.specs.Lines.{covers, point_part, edge_part, side_at, overlap_west, overlap_east, conflict};
ghost use Rattle.geometry.specs.Bounds.{PartsBounded};
ghost use Rattle.geometry.specs.Crossing.{order_on, turned, broken, is_up, lower_beside};

use std::cmp::Ordering;
use subdivision::{Segment, Side};

// An edge covers the abscissa x: half open, and closed at the eastern margin.
pub fn covers(margin: u32, g: Segment, x: u32) -> bool
    ensures { result ≡ holds (covers margin g x) }
{
    (g.xw <= x && x < g.xe) || (x == margin && g.xe == margin)
}

// The two numbers whose difference is the signed number of document 01's formula.
#[derive(Clone, Copy)]
pub struct Scaled {
    pub point: u64,
    pub edge: u64,
}

// The point's and the edge's part of the side test: the only product of coordinates. For no coordinates do they leave 64 bits, and on a
// sheet they stay below 2^63.
pub fn parts(g: Segment, x: u32, y: u32) -> Scaled
    ensures scaled { (result.point ≡ point_part g y) × (result.edge ≡ edge_part g x) }
    ensures bounded { PartsBounded g x y result.point result.edge }
{
    let width = g.xe.saturating_sub(g.xw) as u64;
    let right = g.xe.saturating_sub(x) as u64;
    let left = x.saturating_sub(g.xw) as u64;
    Scaled {
        edge: (g.yw as u64) * right + (g.ye as u64) * left,
        point: (y as u64) * width,
    }
}

// The side of an edge on which the point (x, y) lies, where the edge reaches x.
pub fn side(g: Segment, x: u32, y: u32) -> Side
    ensures { result ≡ side_at g x y }
{
    let parts = parts(g, x, y);
    match parts.point.cmp(&parts.edge) {
        Ordering::Less => Side::Below,
        Ordering::Equal => Side::On,
        Ordering::Greater => Side::Above,
    }
}

// Whether two edges overlap: both run west to east, and each begins before the other ends. Nothing branches on the way.
fn overlap(g: Segment, h: Segment) -> bool
    ensures { result ≡ ltb (overlap_west g h) (overlap_east g h) }
{
    let run = (g.xw < g.xe) & (h.xw < h.xe);
    let meet = (g.xw < h.xe) & (h.xw < g.xe);
    run & meet
}

// The side, seen from the other edge.
fn turned(s: Side) -> Side
    ensures { result ≡ turned s }
{
    match s {
        Side::Below => Side::Above,
        Side::On => Side::On,
        Side::Above => Side::Below,
    }
}

// The side of g on which h lies at the western end of their overlap: the western vertex there, against the other edge.
fn order_west(g: Segment, h: Segment) -> Side
    requires { overlap_west g h < overlap_east g h }
    ensures { result ≡ order_on (2 * overlap_west g h) g h }
{
    if g.xw <= h.xw {
        return side(g, h.xw, h.yw);
    }
    turned(side(h, g.xw, g.yw))
}

// The side of g on which h lies at the eastern end of their overlap: the eastern vertex there, against the other edge.
fn order_east(g: Segment, h: Segment) -> Side
    requires { overlap_west g h < overlap_east g h }
    ensures { result ≡ order_on (2 * overlap_east g h) g h }
{
    if h.xe <= g.xe {
        return side(g, h.xe, h.ye);
    }
    turned(side(h, g.xe, g.ye))
}

// Rule 4 is broken, from the order at the two ends of an overlap, a common western vertex (fork) and a common eastern one (meet).
fn broken(west: Side, east: Side, fork: bool, meet: bool) -> bool
    ensures { result ≡ broken west east fork meet }
{
    match (west, east) {
        (Side::Below, Side::Below) | (Side::Above, Side::Above) => false,
        (Side::Below, Side::Above) | (Side::Above, Side::Below) => true,
        (Side::On, Side::On) => true,
        (Side::On, Side::Below | Side::Above) => !fork,
        (Side::Below | Side::Above, Side::On) => !meet,
    }
}

// Two edges break rule 4: decided by side tests of their vertices, never by heights.
pub fn conflict(g: Segment, h: Segment) -> bool
    ensures { result ≡ holds (conflict g h) }
{
    overlap(g, h)
        && broken(
            order_west(g, h),
            order_east(g, h),
            g.west == h.west,
            g.east == h.east,
        )
}

// Of two edges that start at one vertex (eastern) or end at one, g is the lower beside it: decided by
// a side test at the other end of their overlap. False where they do not overlap. `eastern` is the definition's argument: two
// functions would be twins.
pub fn lower_beside(eastern: bool, g: Segment, h: Segment) -> bool
    ensures { result ≡ holds (lower_beside eastern g h) }
{
    if !overlap(g, h) {
        false
    } else if eastern {
        is_above(order_east(g, h))
    } else {
        is_above(order_west(g, h))
    }
}

// Whether a side is above.
fn is_above(s: Side) -> bool
    ensures { result ≡ is_up s }
{
    matches!(s, Side::Above)
}

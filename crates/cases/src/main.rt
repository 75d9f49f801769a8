// The worked cases of document 01, a line each: the lens's points searched, the worked sheets opened,
// sheets at the limits opened, and the lens's points read; lca, top bits, and on the lens sheet the order from west to
// east, the side of each covering edge at the seven points, and rule 4; then rule 4 broken.
#![tactic(auto)]

mod limits;
mod openings;
mod readings;
mod searches;

use crate::limits::limits;
use crate::openings::openings;
use crate::readings::readings;
use crate::searches::searches;
use geometry::lines::{conflict, covers, side};
use numbers::dyadic;
use sorting::keyed::sort_by_key;
use std::io;
use subdivision::Segment;
use tables::{LentSheet, Tables, shifted};

// What every word holds before it is lent.
const LENT: u32 = 99;

// The lens sheet's vertices.
const VERTICES: [i32; 8] = [0, 0, 2, 2, 2, -2, 4, 0];

// The lens sheet's edges.
const EDGES: [u32; 16] = [0, 1, 2, 1, 1, 3, 2, 1, 0, 2, 1, 0, 2, 3, 1, 0];

// A sheet from 0 to 4, of words that a case lists.
fn sheet<'a>(vertices: &'a [i32], edges: &'a [u32], zones: u32) -> LentSheet<'a> {
    LentSheet {
        west: 0,
        east: 4,
        tables: Tables { vertices, edges },
        zones,
    }
}

// The lens sheet.
fn lens() -> LentSheet<'static> {
    sheet(&VERTICES, &EDGES, 3)
}

fn lca(rt: &impl Print, i: u32, j: u32) -> io::Result<()> {
    let chain = dyadic::lca(i, j);
    println!(rt; "lca {i} {j}: {chain}")
}

fn top_bits(rt: &impl Print) -> io::Result<()> {
    print!(rt; "top bits of 1 to 8:")?;
    for k in 1..9 {
        let bit = dyadic::top_bit(k);
        print!(rt; " {bit}")?;
    }
    println!(rt; "")
}

// The edges from west to east, by western x, then by number.
fn eastward(rt: &impl Print) -> io::Result<()> {
    let tables = lens().tables;
    // A fixed buffer: no heap, memory of a known size.
    let mut order = [0u32; 4];
    sort_by_key::<4, _>(|e| tables.segment(e).xw as u64, &mut order);
    print!(rt; "edges from west to east:")?;
    for e in &order {
        print!(rt; " {e}")?;
    }
    println!(rt; "")
}

// The side of each edge that covers a point's abscissa on which the point lies.
fn point(rt: &impl Print, x: i32, y: i32) -> io::Result<()> {
    let px = shifted(x);
    let py = shifted(y);
    let margin = shifted(lens().east);
    print!(rt; "({x},{y}):")?;
    for e in 0..4 {
        let edge = lens().tables.segment(e);
        if covers(margin, edge, px) {
            let side = side(edge, px, py);
            print!(rt; " {side} edge {e}")?;
        }
    }
    println!(rt; "")
}

// Whether two edges break rule 4.
fn broken(rt: &impl Print, what: &str, g: Segment, h: Segment) -> io::Result<()> {
    let answer = if conflict(g, h) { "yes" } else { "no" };
    println!(rt; "{what} rule 4: {answer}")
}

fn pairs(rt: &impl Print) -> io::Result<()> {
    let tables = lens().tables;
    for e in 0..4 {
        for f in e + 1..4 {
            print!(rt; "edges {e} {f} ")?;
            broken(rt, "break", tables.segment(e), tables.segment(f))?;
        }
    }
    Ok(())
}

// An edge between two points that are no vertices of the lens sheet.
fn between(west: u32, east: u32, xw: i32, yw: i32, xe: i32, ye: i32) -> Segment {
    Segment {
        west,
        east,
        xw: shifted(xw),
        yw: shifted(yw),
        xe: shifted(xe),
        ye: shifted(ye),
    }
}

// Rule 4 off the lens sheet: the diagonals of a square, and one edge drawn twice.
fn crossings(rt: &impl Print) -> io::Result<()> {
    let rising = between(0, 1, 0, 0, 4, 4);
    let falling = between(2, 3, 0, 4, 4, 0);
    broken(rt, "the diagonals of a square break", rising, falling)?;
    broken(rt, "an edge drawn twice breaks", rising, rising)
}

fn points(rt: &impl Print) -> io::Result<()> {
    for (x, y) in [(2, 0), (2, 2), (1, 1), (4, 0), (0, 0), (1, 5), (3, -2)] {
        point(rt, x, y)?;
    }
    Ok(())
}

fn main(rt: HostRuntime) -> io::Result<()> {
    searches(&rt)?;
    openings(&rt)?;
    limits(&rt)?;
    readings(&rt)?;
    lca(&rt, 0, 11)?;
    lca(&rt, 7, 9)?;
    lca(&rt, 9, 10)?;
    top_bits(&rt)?;
    eastward(&rt)?;
    points(&rt)?;
    pairs(&rt)?;
    crossings(&rt)
}

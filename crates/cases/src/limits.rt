use crate::openings::opened;
use crate::{LENT, VERTICES, sheet};
use std::io;
use subdivision::{MAX_EDGES, MAX_VERTICES};

// One edge too many, as many as there may be, and a table that is no whole records.
fn edges(rt: &impl Print) -> io::Result<()> {
    // A fixed buffer: no heap, memory of a known size.
    let edges = [0u32; 4 * MAX_EDGES + 4];
    let most = &edges[..4 * MAX_EDGES];
    opened(
        rt,
        "8,193 edges",
        sheet(&VERTICES, &edges, 3),
        &mut [LENT; 8],
    )?;
    opened(
        rt,
        "8,192 edges, 8 words",
        sheet(&VERTICES, most, 3),
        &mut [LENT; 8],
    )?;
    opened(
        rt,
        "five words of edges",
        sheet(&VERTICES, &edges[..5], 3),
        &mut [LENT; 8],
    )
}

// One zone and one vertex too many, and as many as there may be.
fn zones_and_vertices(rt: &impl Print) -> io::Result<()> {
    // A fixed buffer: no heap, memory of a known size.
    let vertices = [0i32; 2 * MAX_VERTICES + 2];
    let most = &vertices[..2 * MAX_VERTICES];
    opened(rt, "4,097 zones", sheet(&[], &[], 4097), &mut [LENT; 8])?;
    opened(
        rt,
        "4,096 zones, 8 words",
        sheet(&[], &[], 4096),
        &mut [LENT; 8],
    )?;
    opened(
        rt,
        "4,097 vertices",
        sheet(&vertices, &[], 1),
        &mut [LENT; 8],
    )?;
    opened(
        rt,
        "4,096 vertices, 3 words",
        sheet(most, &[], 1),
        &mut [LENT; 3],
    )
}

// Sheets opened at the limits of refusal 1 and past them.
pub(crate) fn limits(rt: &impl Print) -> io::Result<()> {
    edges(rt)?;
    zones_and_vertices(rt)
}

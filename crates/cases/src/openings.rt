use crate::{EDGES, LENT, VERTICES, sheet};
use opening::open_sheet;
use std::io;
use tables::{LentSheet, Tables};

// The lens sheet with the x of vertex 3 at 1,000,000,000.
const FAR: [i32; 8] = [0, 0, 2, 2, 2, -2, 1000000000, 0];

// The lens sheet with the x of vertex 3 at 1,000,000,001.
const TOO_FAR: [i32; 8] = [0, 0, 2, 2, 2, -2, 1000000001, 0];

// The vertices of two lenses side by side.
const TWINS: [i32; 14] = [0, 0, 2, 0, 4, 0, 1, 1, 1, -1, 3, 1, 3, -1];

// Two lenses, the left one with zone 2 over zone 1, the right one with zone 1 over zone 2.
const CIRCLE: [u32; 40] = [
    0, 3, 3, 2, 3, 1, 3, 2, 0, 4, 1, 0, 4, 1, 1, 0, 0, 1, 2, 1, 1, 5, 3, 1, 5, 2, 3, 1, 1, 6, 2, 0,
    6, 2, 2, 0, 1, 2, 1, 2,
];

// The same with the right lens as the left.
const ALIKE: [u32; 40] = [
    0, 3, 3, 2, 3, 1, 3, 2, 0, 4, 1, 0, 4, 1, 1, 0, 0, 1, 2, 1, 1, 5, 3, 2, 5, 2, 3, 2, 1, 6, 1, 0,
    6, 2, 1, 0, 1, 2, 2, 1,
];

// The vertices of two lenses side by side over three edges from W to E.
const BENEATH_VERTICES: [i32; 26] = [
    0, 0, 2, 0, 4, 0, 1, 1, 1, -1, 3, 1, 3, -1, 0, -5, 4, -5, 0, -4, 4, -4, 0, -3, 4, -3,
];

// A circle between 5 and 6 beneath zone 2: the left lens with zone 6 over zone 5, the right one with zone
// 5 over zone 6, and under them the zones 4, 3, 1 and 0.
const BENEATH: [u32; 52] = [
    0, 3, 2, 6, 3, 1, 2, 6, 0, 4, 5, 4, 4, 1, 5, 4, 0, 1, 6, 5, 1, 5, 2, 5, 5, 2, 2, 5, 1, 6, 6, 4,
    6, 2, 6, 4, 1, 2, 5, 6, 7, 8, 1, 0, 9, 10, 3, 1, 11, 12, 4, 3,
];

// Two edges from W that meet at vertex 0 on E, with zone 3 above the lower one and zone 1 below the
// upper one: by rule 5's western clause alone the lowest vertex at fault is 0.
const WEDGE_VERTICES: [i32; 6] = [4, 0, 0, 1, 0, -1];

// The edges of the wedge.
const WEDGE: [u32; 8] = [1, 0, 2, 1, 2, 0, 3, 0];

// Every word, to the end of the line.
pub(crate) fn words(rt: &impl Print, words: &[u32]) -> io::Result<()> {
    for word in words {
        print!(rt; " {word}")?;
    }
    println!(rt; "")
}

// Opens a sheet over lent words, and prints the verdict and every word afterwards.
pub(crate) fn opened(
    rt: &impl Print,
    name: &str,
    sheet: LentSheet,
    index: &mut [u32],
) -> io::Result<()> {
    match open_sheet(sheet, index) {
        Ok(()) => print!(rt; "{name}: opened:")?,
        Err(refusal) => print!(rt; "{name}: {refusal}:")?,
    }
    words(rt, index)
}

// The lens sheet with other vertices, from 0 to 1,000,000,000.
fn wide<'a>(vertices: &'a [i32]) -> LentSheet<'a> {
    LentSheet {
        west: 0,
        east: 1000000000,
        tables: Tables {
            vertices,
            edges: &EDGES,
        },
        zones: 3,
    }
}

fn lenses(rt: &impl Print) -> io::Result<()> {
    let lens = sheet(&VERTICES, &EDGES, 3);
    opened(rt, "the lens, 13 words", lens, &mut [LENT; 13])?;
    opened(rt, "x = 1,000,000,000", wide(&FAR), &mut [LENT; 14])?;
    opened(rt, "x = 1,000,000,001", wide(&TOO_FAR), &mut [LENT; 14])?;
    opened(
        rt,
        "x = 1,000,000,001, 13 words",
        wide(&TOO_FAR),
        &mut [LENT; 13],
    )
}

fn twins(rt: &impl Print) -> io::Result<()> {
    let beneath = sheet(&BENEATH_VERTICES, &BENEATH, 7);
    opened(rt, "the circle", sheet(&TWINS, &CIRCLE, 4), &mut [LENT; 23])?;
    opened(
        rt,
        "a circle between 5 and 6 beneath zone 2",
        beneath,
        &mut [LENT; 35],
    )?;
    opened(
        rt,
        "two like lenses",
        sheet(&TWINS, &ALIKE, 4),
        &mut [LENT; 23],
    )?;
    opened(
        rt,
        "the wedge",
        sheet(&WEDGE_VERTICES, &WEDGE, 4),
        &mut [LENT; 15],
    )
}

fn blanks(rt: &impl Print) -> io::Result<()> {
    opened(
        rt,
        "nothing drawn, n = 2",
        sheet(&[], &[], 2),
        &mut [LENT; 8],
    )?;
    opened(
        rt,
        "nothing drawn, n = 1",
        sheet(&[], &[], 1),
        &mut [LENT; 5],
    )?;
    opened(
        rt,
        "nothing drawn, n = 0",
        sheet(&[], &[], 0),
        &mut [LENT; 5],
    )
}

// The worked sheets of document 01, and a wedge for rule 5's western clause.
pub(crate) fn openings(rt: &impl Print) -> io::Result<()> {
    lenses(rt)?;
    twins(rt)?;
    blanks(rt)
}

use crate::openings::{opened, words};
use crate::{LENT, lens, sheet};
use search::search_point;
use std::io;
use subdivision::{MAX_EXAMINED, MAX_ZONES};
use tables::LentSheet;

// The quick search of a point over a lent trail: its answer, its trail and counts, and every lent trail word afterwards.
fn searched(
    rt: &impl Print,
    name: &str,
    sheet: LentSheet,
    index: &[u32],
    x: i32,
    y: i32,
    trail: &mut [u32],
) -> io::Result<()> {
    match search_point(sheet, index, x, y, trail) {
        Ok(found) => {
            let answer = found.answer;
            let examined = found.examined;
            let probes = found.probes;
            print!(rt; "{name}: {answer}, trail")?;
            if examined == 0 {
                print!(rt; " none")?;
            }
            for e in trail.iter().take(examined as usize) {
                print!(rt; " {e}")?;
            }
            print!(rt; ", {examined} edges, {probes} probes; lent trail")?;
        }
        Err(refusal) => {
            print!(rt; "{name}: {refusal}, trail none, 0 edges, 0 probes; lent trail")?;
        }
    }
    words(rt, trail)
}

// The quick search of the worked points of the lens sheet over trails of 4 words.
fn points(rt: &impl Print, index: &[u32]) -> io::Result<()> {
    for (name, x, y) in [
        ("the lens searched at (2,0)", 2, 0),
        ("the lens searched at (2,2)", 2, 2),
        ("the lens searched at (1,1)", 1, 1),
        ("the lens searched at (4,0)", 4, 0),
        ("the lens searched at (0,0)", 0, 0),
        ("the lens searched at (1,5)", 1, 5),
        ("the lens searched at (3,-2)", 3, -2),
        ("the lens searched at (5,0)", 5, 0),
    ] {
        searched(rt, name, lens(), index, x, y, &mut [LENT; 4])?;
    }
    Ok(())
}

// A point of a sheet with 4,096 zones and nothing drawn, over a trail that is too short and one with room.
fn trails(rt: &impl Print) -> io::Result<()> {
    let index = [LENT; 3 * MAX_ZONES + 1];
    let blank = sheet(&[], &[], 4096);
    let mut short = [LENT; MAX_EXAMINED - 1];
    searched(
        rt,
        "4,096 zones, a trail of 11",
        blank,
        &index,
        2,
        0,
        &mut short,
    )?;
    // A fixed buffer: no heap, memory of a known size.
    let mut room = [LENT; MAX_EXAMINED];
    searched(
        rt,
        "4,096 zones, a trail of 12",
        blank,
        &index,
        2,
        0,
        &mut room,
    )
}

// The worked points of document 01 by the quick search, over the index that opening writes; then a
// short trail, a short index, and an index whose place of zone 0 is no place; then trails for the largest number of zones.
pub(crate) fn searches(rt: &impl Print) -> io::Result<()> {
    // A fixed buffer: no heap, memory of a known size.
    let mut index = [LENT; 15];
    opened(rt, "the lens, 15 words", lens(), &mut index)?;
    points(rt, &index)?;
    searched(
        rt,
        "a trail of 1 word",
        lens(),
        &index,
        2,
        0,
        &mut [LENT; 1],
    )?;
    searched(
        rt,
        "13 index words",
        lens(),
        &[LENT; 13],
        2,
        0,
        &mut [LENT; 4],
    )?;
    index[0] = 7;
    searched(
        rt,
        "the place of zone 0 set to 7",
        lens(),
        &index,
        2,
        0,
        &mut [LENT; 4],
    )?;
    trails(rt)
}

ghost use Rattle.std.specs.Prelude.{◌≡◌, ◌*◌, ◌/◌, ◌≤◌, length};
ghost use Rattle.subdivision.specs.Lists.{put};
ghost use Rattle.subdivision.specs.Layout.{index_need};
ghost use Rattle.tables.specs.Lent.{lent};
ghost use Rattle.subdivision.specs.Accepted.{Accepted};
ghost use Rattle.subdivision.specs.Engine.{HoldsIndex};
ghost use Rattle.subdivision.specs.Calls.{reading};
ghost use Rattle.frames.specs.Placing.{refused_text, answers_text, sheet_text};

use answers::{put_refusal, put_reply};
use opening::open_sheet;
use search::search_point;
use subdivision::{Answer, MAX_EXAMINED, Refused};
use tables::LentSheet;
use texts::Text;

// Opens a sheet over an index with room for it, and writes what is printed for it and its points.
pub(crate) fn place_sheet(
    sheet: LentSheet,
    points: &[i32],
    index: &mut [u32],
    text: &mut [u8],
) -> usize
    requires { (index_need sheet.zones (length sheet.tables.edges.now / 4) ≤ length index.old) × ((60 ≤ length text.old) × (30 * (length points.now / 2) ≤ length text.old)) }
    ensures value { result ≡ length (sheet_text (lent sheet.entry) points.now) }
    ensures text_after { text.new ≡ put (sheet_text (lent sheet.entry) points.now) text.old }
{
    match open_sheet(sheet, index) {
        Ok(()) => place_points(sheet, points, index, text),
        Err(refusal) => put_refused(refusal.number, refusal.item as u64, text),
    }
}

// Writes a line for each point of an opened sheet.
fn place_points(sheet: LentSheet, points: &[i32], index: &[u32], text: &mut [u8]) -> usize
    requires accepted { Accepted (lent sheet) × HoldsIndex (lent sheet) index.now }
    requires points_in_bounds { 30 * (length points.now / 2) ≤ length text.old }
    ensures value { result ≡ length (answers_text (lent sheet.entry) points.now (length points.now / 2)) }
    ensures text_after { text.new ≡ put (answers_text (lent sheet.entry) points.now (length points.now / 2)) text.old }
{
    let mut lines = Text { bytes: text, at: 0 };
    for i in 0..points.len() / 2 {
        let reply = find(sheet, index, points[2 * i], points[2 * i + 1]);
        put_reply(reply, &mut lines);
    }
    lines.at
}

// The quick search of a point of an opened sheet, over a trail of its own: it is read as by the plain reading.
fn find(sheet: LentSheet, index: &[u32], x: i32, y: i32) -> Result<Answer, Refused>
    requires { Accepted (lent sheet) × HoldsIndex (lent sheet) index.now }
    ensures { result ≡ reading (lent sheet.entry) x y }
{
    // A fixed buffer: no heap, memory of a known size.
    let mut trail = [0u32; MAX_EXAMINED];
    let found = search_point(sheet, index, x, y, &mut trail)?;
    Ok(found.answer)
}

// Writes the line of a refusal to the front of a text, and gives its length.
pub(crate) fn put_refused(number: u32, item: u64, text: &mut [u8]) -> usize
    requires { length (refused_text number item) ≤ length text.old }
    ensures value { result ≡ length (refused_text number item) }
    ensures text_after { text.new ≡ put (refused_text number item) text.old }
{
    let mut line = Text { bytes: text, at: 0 };
    put_refusal(number, item, &mut line);
    line.at
}

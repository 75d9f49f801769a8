// The C ABI: the calls for tests and for programs in other languages. A `&[T]` is a pointer and
// then a length. What a caller owes (valid pointers, no overlap) no proof covers. C lends each table by itself, so that the words of
// a sheet stand side by side here, and nowhere above.
#![tactic(auto)]

ghost use Rattle.std.specs.Prelude.{◌≡◌};
ghost use Rattle.subdivision.specs.Sheet.{sheet_of};
ghost use Rattle.subdivision.specs.Answers.{answer_values, found_values, verdict_values};
ghost use Rattle.subdivision.specs.Calls.{opening, reading, searching};
ghost use Rattle.frames.specs.Answers.{page_values, written_values};
ghost use Rattle.frames.specs.Pages.{read_page};
ghost use Rattle.frames.specs.Texts.{write_page};
ghost use Rattle.frames.specs.Placing.{place_page};
ghost use Rattle.tables.specs.Lent.{lent};
ghost use Rattle.ledger.specs.Answers.{month_values};
ghost use Rattle.ledger.specs.Months.{samples_of, lent_of, month_of};

use hexadecimal::signs::word_of;
use months::judge_month;
use opening::open_sheet;
use pages::read_page;
use placing::place_page;
use reading::read_point;
use search::search_point;
use subdivision::Answer;
use tables::{LentSheet, Tables};
use tallies::LentSamples;
use writer::write_page;

// The sheet of lent words.
fn lent<'a>(
    west: i32,
    east: i32,
    vertices: &'a [i32],
    edges: &'a [u32],
    zones: u32,
) -> LentSheet<'a>
    ensures { lent result ≡ sheet_of west east vertices.entry.now edges.entry.now zones }
{
    LentSheet {
        west,
        east,
        tables: Tables { vertices, edges },
        zones,
    }
}

// Opens a sheet: `out` is the refusal's number and the item that it names, 0 0 where the sheet is
// opened; then the first 3n + m + 1 words of `index` are its index.
#[unsafe(no_mangle)]
pub extern "C" fn tw_open(
    west: i32,
    east: i32,
    vertices: &[i32],
    edges: &[u32],
    zones: u32,
    index: &mut [u32],
    out: &mut [u32; 2],
)
    ensures verdict { out.new ≡ verdict_values (opening (sheet_of west east vertices.now edges.now zones) index.old).verdict }
    ensures words { index.new ≡ (opening (sheet_of west east vertices.now edges.now zones) index.old).index }
{
    *out = match open_sheet(lent(west, east, vertices, edges, zones), index) {
        Ok(()) => [0, 0],
        Err(refusal) => [refusal.number, refusal.item],
    };
}

// Reads a point by the plain reading: `out` is the kind (0 refused, 1 vertex, 2 edge, 3 zone), its
// number, and the item that a refusal names.
#[unsafe(no_mangle)]
pub extern "C" fn tw_read(
    west: i32,
    east: i32,
    vertices: &[i32],
    edges: &[u32],
    zones: u32,
    x: i32,
    y: i32,
    out: &mut [u32; 3],
)
    ensures { out.new ≡ answer_values (reading (sheet_of west east vertices.now edges.now zones) x y) }
{
    *out = match read_point(lent(west, east, vertices, edges, zones), x, y) {
        Ok(Answer::Vertex(v)) => [1, v, 0],
        Ok(Answer::Edge(e)) => [2, e, 0],
        Ok(Answer::Zone(z)) => [3, z, 0],
        Err(refusal) => [0, refusal.number, refusal.item],
    };
}

// Searches for a point by the words of an index: `out` is the kind (0 refused, 1 vertex, 2 edge, 3
// zone), its number, the item that a refusal names, the edges examined and the probes; the edges
// examined are written, in order, to the front of `trail`.
#[unsafe(no_mangle)]
pub extern "C" fn tw_search(
    west: i32,
    east: i32,
    vertices: &[i32],
    edges: &[u32],
    zones: u32,
    index: &[u32],
    x: i32,
    y: i32,
    trail: &mut [u32],
    out: &mut [u32; 5],
)
    ensures found { out.new ≡ found_values (searching (sheet_of west east vertices.now edges.now zones) index.now x y trail.old).found }
    ensures listed { trail.new ≡ (searching (sheet_of west east vertices.now edges.now zones) index.now x y trail.old).trail }
{
    *out = match search_point(lent(west, east, vertices, edges, zones), index, x, y, trail) {
        Ok(found) => match found.answer {
            Answer::Vertex(v) => [1, v, 0, found.examined, found.probes],
            Answer::Edge(e) => [2, e, 0, found.examined, found.probes],
            Answer::Zone(z) => [3, z, 0, found.examined, found.probes],
        },
        Err(refusal) => [0, refusal.number, refusal.item, 0, 0],
    };
}

// Reads a page of frames: `out` is the refusal's number and the line that it names, 0 0 where the page is good; then W and E as
// their words, V, m, n and the number of points. The words read are written to the fronts of the tables.
#[unsafe(no_mangle)]
pub extern "C" fn tw_read_page(
    page: &[u8],
    vertices: &mut [i32],
    edges: &mut [u32],
    points: &mut [i32],
    out: &mut [u64; 8],
)
    ensures page { out.new ≡ page_values (read_page page.now vertices.old edges.old points.old).page }
    ensures vertices { vertices.new ≡ (read_page page.now vertices.old edges.old points.old).vertices }
    ensures edges { edges.new ≡ (read_page page.now vertices.old edges.old points.old).edges }
    ensures points { points.new ≡ (read_page page.now vertices.old edges.old points.old).points }
{
    *out = match read_page(page, vertices, edges, points) {
        Ok(read) => [
            0,
            0,
            word_of(read.head.west) as u64,
            word_of(read.head.east) as u64,
            read.head.vertices as u64,
            read.head.edges as u64,
            read.head.zones as u64,
            read.points as u64,
        ],
        Err(refusal) => [refusal.number as u64, refusal.line as u64, 0, 0, 0, 0, 0, 0],
    };
}

// Writes a sheet with its points as a page of frames to the front of `text`: `out` is the refusal's number, 0 where the page is
// written, and the number of bytes.
#[unsafe(no_mangle)]
pub extern "C" fn tw_write_page(
    west: i32,
    east: i32,
    vertices: &[i32],
    edges: &[u32],
    zones: u32,
    points: &[i32],
    text: &mut [u8],
    out: &mut [u64; 2],
)
    ensures written { out.new ≡ written_values (write_page (sheet_of west east vertices.now edges.now zones) points.now text.old).written }
    ensures text { text.new ≡ (write_page (sheet_of west east vertices.now edges.now zones) points.now text.old).text }
{
    *out = match write_page(lent(west, east, vertices, edges, zones), points, text) {
        Ok(count) => [0, count as u64],
        Err(refusal) => [refusal.number as u64, 0],
    };
}

// Writes what the program prints for a page of frames to the front of `text`: `out` is the refusal's number, 0 where there is none,
// and the number of bytes.
#[unsafe(no_mangle)]
pub extern "C" fn tw_place_page(page: &[u8], text: &mut [u8], out: &mut [u64; 2])
    ensures written { out.new ≡ written_values (place_page page.now text.old).written }
    ensures text { text.new ≡ (place_page page.now text.old).text }
{
    *out = match place_page(page, text) {
        Ok(length) => [0, length as u64],
        Err(refused) => [refused.number as u64, 0],
    };
}

// Judges a month: `out` is the refusal's number and the item that it names, 0 0 where the month is judged; then the numbers of taken
// samples on a boundary and off the sheet, which are listed at the fronts of `boundary` and `off`. Each zone has three words of
// `results` and, where it has a mean, its place of `means`.
#[unsafe(no_mangle)]
pub extern "C" fn tw_month(
    west: i32,
    east: i32,
    vertices: &[i32],
    edges: &[u32],
    zones: u32,
    index: &[u32],
    points: &[i32],
    kinds: &[u32],
    values: &[f64],
    permits: &[f64],
    boundary: &mut [u32],
    off: &mut [u32],
    results: &mut [u32],
    means: &mut [f64],
    out: &mut [u32; 4],
)
    ensures month { out.new ≡ month_values (month_of (sheet_of west east vertices.now edges.now zones) index.now (samples_of points.now kinds.now values.now) permits.now (lent_of boundary.old off.old results.old means.old)).month }
    ensures left { lent_of boundary.new off.new results.new means.new ≡ (month_of (sheet_of west east vertices.now edges.now zones) index.now (samples_of points.now kinds.now values.now) permits.now (lent_of boundary.old off.old results.old means.old)).lent }
{
    let samples = LentSamples {
        points,
        kinds,
        values,
    };
    let sheet = lent(west, east, vertices, edges, zones);
    *out = match judge_month(
        sheet, index, samples, permits, boundary, off, results, means,
    ) {
        Ok(listed) => [0, 0, listed.boundary, listed.off],
        Err(refused) => [refused.number, refused.item, 0, 0],
    };
}

// What the program prints for a page: its sheet is opened once, and each point is found by the quick search.
#![tactic(auto)]

ghost use Rattle.std.specs.Prelude.{◌≡◌, false, ℕ, ◌*◌, ◌≤◌, length, take};
ghost use Rattle.io.specs.Counts.{IsPrefixLen};
ghost use Rattle.subdivision.specs.Limits.{program_limits};
ghost use Rattle.subdivision.specs.Formula.{holds};
ghost use Rattle.subdivision.specs.Lists.{put};
ghost use Rattle.subdivision.specs.Layout.{index_need};
ghost use Rattle.subdivision.specs.Sheet.{sheet_of};
ghost use Rattle.frames.specs.Placing.{max_page, max_text, sheet_text, head_beyond, placed_text, place_page};

use crate::placed_sheet::{place_sheet, put_refused};
use frames::{Head, MAX_PAGE, MAX_TEXT};
use pages::heads::head_beyond;
use pages::read_page;
use subdivision::{HELD_EDGES, HELD_VERTICES, HELD_ZONES, Refused};
use tables::{LentSheet, Tables};

mod placed_sheet;

// A page of MAX_PAGE bytes has fewer points than this.
const MAX_POINTS: usize = 3450;

// The words of the longest index of a sheet that the program holds.
const HELD_INDEX: usize = 3 * HELD_ZONES + HELD_EDGES + 1;

// Writes what the program prints for a page to the front of `text`, and gives its length; or gives refusal 33 where `text` has
// less room than MAX_TEXT bytes, and writes nothing.
pub fn place_page(page: &[u8], text: &mut [u8]) -> Result<usize, Refused>
    ensures written { result ≡ (place_page page.now text.old).written }
    ensures text { text.new ≡ (place_page page.now text.old).text }
    ensures counted { (count : ℕ) → result ≡ Ok count → IsPrefixLen count text.new }
{
    if text.len() < MAX_TEXT {
        return Err(Refused {
            number: 33,
            item: 0,
        });
    }
    if MAX_PAGE < page.len() {
        return Ok(put_refused(34, 0, text));
    }
    if head_beyond(page) {
        return Ok(put_refused(1, 0, text));
    }
    // A fixed buffer: no heap, memory of a known size.
    let mut vertices = [0i32; 2 * HELD_VERTICES];
    let mut edges = [0u32; 4 * HELD_EDGES];
    let mut points = [0i32; 2 * MAX_POINTS];
    let mut index = [0u32; HELD_INDEX];
    Ok(place_read(
        page,
        &mut vertices,
        &mut edges,
        &mut points,
        &mut index,
        text,
    ))
}

// Reads a page that the program holds into tables with room for any such, and writes what is printed for it.
fn place_read(
    page: &[u8],
    vertices: &mut [i32],
    edges: &mut [u32],
    points: &mut [i32],
    index: &mut [u32],
    text: &mut [u8],
) -> usize
    requires page_len_bound { (length page.now ≤ max_page) × (max_text ≤ length text.old) }
    requires vertices_in_bounds { (2 * program_limits.vertices ≤ length vertices.old) × ((4 * program_limits.edges ≤ length edges.old) × ((6900 ≤ length points.old) × ((index_need program_limits.zones program_limits.edges ≤ length index.old) × (holds (head_beyond page.now) ≡ false)))) }
    ensures value { result ≡ length (placed_text page.now) }
    ensures text_after { text.new ≡ put (placed_text page.now) text.old }
{
    match read_page(page, vertices, edges, points) {
        Err(refusal) => put_refused(refusal.number, refusal.line as u64, text),
        Ok(read) => place_head(read.head, read.points, vertices, edges, points, index, text),
    }
}

// Writes what is printed for the sheet and the points that a head counts in tables.
fn place_head(
    head: Head,
    count: usize,
    vertices: &[i32],
    edges: &[u32],
    points: &[i32],
    index: &mut [u32],
    text: &mut [u8],
) -> usize
    requires vertices_in_bounds { (2 * head.vertices ≤ length vertices.now) × ((4 * head.edges ≤ length edges.now) × (2 * count ≤ length points.now)) }
    requires edges_in_bounds { (index_need head.zones head.edges ≤ length index.old) × ((60 ≤ length text.old) × (30 * count ≤ length text.old)) }
    ensures value { result ≡ length (sheet_text (sheet_of head.west head.east (take (2 * head.vertices) vertices.now) (take (4 * head.edges) edges.now) head.zones) (take (2 * count) points.now)) }
    ensures text_after { text.new ≡ put (sheet_text (sheet_of head.west head.east (take (2 * head.vertices) vertices.now) (take (4 * head.edges) edges.now) head.zones) (take (2 * count) points.now)) text.old }
{
    let sheet = LentSheet {
        west: head.west,
        east: head.east,
        tables: Tables {
            vertices: &vertices[..2 * (head.vertices as usize)],
            edges: &edges[..4 * (head.edges as usize)],
        },
        zones: head.zones,
    };
    place_sheet(sheet, &points[..2 * count], index, text)
}

ghost use Rattle.std.specs.Prelude.{◌≡◌, suc, ◌<◌, ◌≤◌, length};
ghost use Rattle.subdivision.specs.Formula.{Means};
ghost use Rattle.frames.specs.Lines.{line_start, line_end, kind_at};
ghost use Rattle.frames.specs.Pages.{kind_in_order, head_of, is_whole, is_well_made, judged_page};
ghost use Rattle.pages.specs.Steps.{Stepped};

use crate::page_tables::read_head;
use counts::counts_within;
use frames::{Head, Line, PageRefused};
use lines::read_line;

// The kind that a line is to be of, where there are so many vertices and edges.
fn kind_in_order(vertices: u32, edges: u32, line: usize) -> u32
    ensures { result ≡ kind_in_order vertices edges line }
{
    if line == 0 {
        0
    } else if line <= vertices as usize {
        1
    } else if line <= vertices as usize + edges as usize {
        2
    } else {
        3
    }
}

// A step over a frame: its kind is in order, and line 0's counts are within the limits.
fn judge_frame(
    page: &[u8],
    line: usize,
    head: Head,
    kind: u32,
    next: usize,
) -> Result<Option<usize>, PageRefused>
    requires head_value { head ≡ head_of page.now }
    requires means { Means (is_whole page.now line) × Means (is_well_made page.now line) }
    requires kind_value { (kind ≡ kind_at page.now (line_start page.now line)) × (next ≡ suc (line_end page.now (line_start page.now line))) }
    ensures { Stepped page.now line result }
{
    if kind != kind_in_order(head.vertices, head.edges, line) {
        return Err(PageRefused { number: 31, line });
    }
    if line == 0 && !counts_within(head.vertices as usize, head.edges as usize, head.zones) {
        return Err(PageRefused { number: 1, line });
    }
    Ok(Some(next))
}

// A step over the line that begins at a place: where the next line begins, none where the page ends before the line, or the
// line's refusal.
fn judge_line(page: &[u8], at: usize, line: usize, head: Head) -> Result<Option<usize>, PageRefused>
    requires head_value { head ≡ head_of page.now }
    requires at_value { (at ≡ line_start page.now line) × (at ≤ length page.now) }
    ensures { Stepped page.now line result }
{
    match read_line(page, at) {
        Line::Frame(kind, next) => judge_frame(page, line, head, kind, next),
        Line::Malformed => Err(PageRefused { number: 30, line }),
        Line::Unfinished => Err(PageRefused { number: 32, line }),
        Line::End if line <= head.vertices as usize + head.edges as usize => {
            Err(PageRefused { number: 32, line })
        }
        Line::End => Ok(None),
    }
}

// The page judged, and its number of points where it is good: the earliest line that is not good decides, unless the page ends
// there.
pub(crate) fn judge_page(page: &[u8]) -> Result<usize, PageRefused>
    ensures { result ≡ judged_page page.now }
{
    let head = read_head(page);
    let mut at = 0;
    let mut line = 0;
    // A `while`: a line begins where the one before it ends.
    while let Some(next) = judge_line(page, at, line, head)? {
        at = next;
        line += 1;
    }
    Ok(line - 1 - head.vertices as usize - head.edges as usize)
}

ghost use Rattle.std.specs.Prelude.{◌≡◌, ◌≤◌, length};
ghost use Rattle.subdivision.specs.Lowest.{found};
ghost use Rattle.frames.specs.Lines.{frame_length, line_end, line_at};
ghost use Rattle.lines.specs.WholeLine.{whole_line};

use frames::Line;
use hexadecimal::digits::{hexadecimal, number};

// The place of the first newline from a place on; none where there is none.
fn line_end(page: &[u8], at: usize) -> Option<usize>
    requires { at ≤ length page.now }
    ensures { result ≡ found (length page.now) (line_end page.now at) }
{
    let past = page[at..].iter().position(|b| *b == b'\n')?;
    Some(at + past)
}

// The length of a frame of a kind.
fn frame_length(kind: u32) -> usize
    ensures { result ≡ frame_length kind }
{
    match kind {
        0 => 42,
        2 => 34,
        _ => 18,
    }
}

// What stands at a place of a page.
pub(crate) fn line_at(page: &[u8], at: usize) -> Line
    ensures { result ≡ line_at page.now at }
{
    if page.len() <= at {
        return Line::End;
    }
    match line_end(page, at) {
        Some(end) => whole_line(page, at, end),
        None => Line::Unfinished,
    }
}

// What the bytes of a whole line are, from its place to its end.
fn whole_line(page: &[u8], at: usize, end: usize) -> Line
    requires { (at ≤ end) × (end ≤ length page.now) }
    ensures { result ≡ whole_line page.now at end }
{
    if !hexadecimal(page, at, end) {
        return Line::Malformed;
    }
    let kind = number(page, at, 2);
    if kind < 4 && end - at == frame_length(kind) {
        Line::Frame(kind, end + 1)
    } else {
        Line::Malformed
    }
}

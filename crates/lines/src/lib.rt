// A reader of the lines of a page: it holds the lent page and its place in it, and each of its methods is thin over `line_at`, which
// takes a plain page and a place. Whoever calls `read_line` has no reader to prove anything of.
#![tactic(auto)]

ghost use Rattle.std.specs.Prelude.{◌≡◌};
ghost use Rattle.frames.specs.Lines.{line_at};

use crate::frame::line_at;
use frames::Line;

mod frame;

// A lent page, and a place in it.
#[derive(Clone, Copy)]
pub struct Reader<'a> {
    pub page: &'a [u8],
    pub at: usize,
}

impl<'a> Reader<'a> {
    // A reader at the start of a page.
    pub fn new(page: &'a [u8]) -> Reader<'a>
        ensures { (result.page ≡ page.entry) × (result.at ≡ 0) }
    {
        Reader { page, at: 0 }
    }

    // The reader of the same page at another place.
    pub fn moved(self, at: usize) -> Reader<'a>
        ensures { (result.page ≡ self.entry.page) × (result.at ≡ at) }
    {
        Reader {
            page: self.page,
            at,
        }
    }

    // The line at the reader's place.
    pub fn line(self) -> Line
        ensures { result ≡ line_at self.entry.page.now self.entry.at }
    {
        line_at(self.page, self.at)
    }
}

// The line at a place of a page.
pub fn read_line(page: &[u8], at: usize) -> Line
    ensures { result ≡ line_at page.now at }
{
    Reader::new(page).moved(at).line()
}

ghost use Rattle.std.specs.Prelude.{◌≡◌, true, false, ◌<◌, ◌/◌, length, get_or, set};
ghost use Rattle.marks.specs.Marks.{place, marked};

use numbers::words::entry_or;

// A word of an edge's four, by what it names.
#[derive(Clone, Copy, PartialEq, Eq, Debug)]
pub enum Word {
    WesternVertex,
    EasternVertex,
    ZoneAbove,
    ZoneBelow,
}

impl Word {
    // The word's place among the four.
    fn place(self) -> usize
        ensures value { result ≡ place self }
        ensures within { result < 4 }
    {
        self as usize
    }
}

// Marks what the edges name by a word of theirs; what has no mark is skipped.
pub fn mark_named(edges: &[u32], word: Word, marks: &mut [bool])
    ensures { marks.new ≡ marked edges.now (place word) (length edges.now / 4) marks.old }
{
    let at = word.place();
    for e in 0..edges.len() / 4 {
        mark(marks, edges[4 * e + at]);
    }
}

// Sets the mark of v, if it has one.
fn mark(marks: &mut [bool], v: u32)
    ensures { marks.new ≡ set marks.old v true }
{
    // By its place: after `get_mut` of a slice the proof knows none of the elements, and didn't close.
    let i = v as usize;
    if i < marks.len() {
        marks[i] = true;
    }
}

// Whether v is marked: no where it has no mark.
pub fn is_marked(marks: &[bool], v: u32) -> bool
    ensures { result ≡ get_or marks.now v false }
{
    entry_or(marks, v as usize, false)
}

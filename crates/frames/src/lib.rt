// Document 02, P1, as types: what stands at a place of a page, and the answers of its reader, its writer and the program. The
// definitions over them are in specs/.
#![tactic(auto)]

// The program reads a page of at most so many bytes.
pub const MAX_PAGE: usize = 65536;

// What the program prints for a page has at most so many bytes.
pub const MAX_TEXT: usize = 131072;

// What stands at a place of a page.
#[derive(Clone, Copy, Debug, PartialEq, Eq)]
pub enum Line {
    // A frame: its kind, and the place past its newline. The kind is the number that two digits of the page write: an enum is no
    // plainer, as the order of the kinds and the writer would turn it back into the number.
    Frame(u32, usize),
    // A whole line that is no frame.
    Malformed,
    // Bytes with no newline after them.
    Unfinished,
    // Nothing is left.
    End,
}

// The numbers of a head.
#[derive(Clone, Copy, Debug, PartialEq, Eq)]
pub struct Head {
    pub west: i32,
    pub east: i32,
    pub vertices: u32,
    pub edges: u32,
    pub zones: u32,
}

// What a good page holds beside the words of its tables: its sheet's head, and the number of points.
#[derive(Clone, Copy, Debug, PartialEq, Eq)]
pub struct PageContents {
    pub head: Head,
    pub points: usize,
}

// Why a page is refused: the refusal's number, and the line that it names, 0 where it names none.
#[derive(Clone, Copy, Debug, PartialEq, Eq)]
pub struct PageRefused {
    pub number: u32,
    pub line: usize,
}

// The answers of document 01, as types, and its limits as the sizes of local storage. The definitions over them are in specs/.
#![tactic(auto)]

use std::fmt;

// At most so many vertices.
pub const MAX_VERTICES: usize = 4096;

// At most so many edges.
pub const MAX_EDGES: usize = 8192;

// At most so many zones.
pub const MAX_ZONES: usize = 4096;

// A search examines at most so many edges: the bit length of MAX_ZONES - 1.
pub const MAX_EXAMINED: usize = 12;

// The lowest coordinate, shifted.
pub const LOWEST: u32 = 1147483648;

// The highest coordinate, shifted.
pub const HIGHEST: u32 = 3147483648;

// A program with fixed buffers holds at most so many vertices.
pub const HELD_VERTICES: usize = 1024;

// A program with fixed buffers holds at most so many edges.
pub const HELD_EDGES: usize = 2048;

// A program with fixed buffers holds at most so many zones.
pub const HELD_ZONES: usize = 1024;

// Why a call refuses.
#[derive(Clone, Copy, Debug, PartialEq, Eq)]
pub struct Refused {
    // The refusal's number.
    pub number: u32,
    // The item that it names, 0 where it names none.
    pub item: u32,
}

impl fmt::Display for Refused {
    fn fmt<W: fmt::Write>(&self, f: &mut fmt::Formatter<W>) -> fmt::Result {
        let number = self.number;
        let item = self.item;
        write!(f, "refused {number} {item}")
    }
}

// Where a point lies: the kinds are kept apart.
#[derive(Clone, Copy, Debug, PartialEq, Eq)]
pub enum Answer {
    Vertex(u32),
    Edge(u32),
    Zone(u32),
}

impl fmt::Display for Answer {
    fn fmt<W: fmt::Write>(&self, f: &mut fmt::Formatter<W>) -> fmt::Result {
        match self {
            Answer::Vertex(v) => write!(f, "vertex {v}"),
            Answer::Edge(e) => write!(f, "edge {e}"),
            Answer::Zone(z) => write!(f, "zone {z}"),
        }
    }
}

// What the quick search gives back beside the trail.
#[derive(Clone, Copy, Debug, PartialEq, Eq)]
pub struct Found {
    pub answer: Answer,
    pub examined: u32,
    pub probes: u32,
}

// The side of an edge on which a point lies.
#[derive(Clone, Copy, Debug, PartialEq, Eq)]
pub enum Side {
    Below,
    On,
    Above,
}

impl fmt::Display for Side {
    fn fmt<W: fmt::Write>(&self, f: &mut fmt::Formatter<W>) -> fmt::Result {
        match self {
            Side::Below => write!(f, "below"),
            Side::On => write!(f, "on"),
            Side::Above => write!(f, "above"),
        }
    }
}

// What a probe sees at an entry of a chain, against an abscissa.
#[derive(Clone, Copy, Debug, PartialEq, Eq)]
pub enum Look {
    // The entry is no edge, or its record is at fault.
    Faulty,
    // The abscissa is west of the edge.
    West,
    // The edge covers the abscissa.
    Covering,
    // The abscissa is beyond the part that the edge covers.
    Beyond,
}

// What the probes of a chain find: the covering edge, and the probes made so far.
#[derive(Clone, Copy, Debug, PartialEq, Eq)]
pub struct Probed {
    pub edge: u32,
    pub probes: u32,
}

// An edge with its ends: the numbers of its two vertices, and their coordinates, shifted.
#[derive(Clone, Copy, Debug, PartialEq, Eq)]
pub struct Segment {
    pub west: u32,
    pub east: u32,
    pub xw: u32,
    pub yw: u32,
    pub xe: u32,
    pub ye: u32,
}

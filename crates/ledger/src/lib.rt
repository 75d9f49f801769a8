// Document 02, P2, as types: a sample's reading, a zone's permit, what is entered for a zone, and the answers of a month. The
// definitions over them are in specs/.
#![tactic(auto)]

// A month has at most so many samples.
pub const MAX_SAMPLES: usize = 4096;

// What a sample's reading is, in mg/L: the enum that document 02 names.
#[derive(Clone, Copy, Debug, PartialEq)]
pub enum Reading {
    NotTaken,
    // The value.
    Measured(f64),
    // The detection limit that it was below.
    BelowDetection(f64),
    // What is lent is none of the three.
    Unknown,
}

// The permit of a zone, in mg/L: the line that its mean may not be over, and its detection floor.
#[derive(Clone, Copy, Debug, PartialEq)]
pub struct Permit {
    pub limit: f64,
    pub floor: f64,
}

// The readings entered for a zone: how many, how many of them below detection, and the sum of their values, which says nothing
// where none is entered.
#[derive(Clone, Copy, Debug, PartialEq)]
pub struct Tally {
    pub count: u32,
    pub below: u32,
    pub sum: f64,
}

// What a zone's month is: the mean, where there is one, against the limit.
#[derive(Clone, Copy, Debug, PartialEq)]
pub enum Judgement {
    NoMean,
    Within(f64),
    Over(f64),
}

// What a judged month gives back beside the lists, the zone results and the means: so many samples on a boundary, and so many off the
// sheet.
#[derive(Clone, Copy, Debug, PartialEq, Eq)]
pub struct Listed {
    pub boundary: u32,
    pub off: u32,
}

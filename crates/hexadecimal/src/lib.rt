// Numbers as hexadecimal digits: read from a page, and two's complement.
#![tactic(auto)]

pub mod digits;
pub mod signs;

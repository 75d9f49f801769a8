// What a quick search asks and reads; the words of a lent index, and the probes of a chain, each judged as refusal 22 says.
#![tactic(auto)]

pub mod chains;
pub mod words;

use tables::Tables;

// What a quick search asks and what it reads: the margins and the point are shifted. It has no invariant, since `probe` asks for no
// limit of the sheet.
#[derive(Clone, Copy)]
pub struct Query<'a> {
    pub west: u32,
    pub east: u32,
    pub tables: Tables<'a>,
    pub zones: u32,
    pub index: &'a [u32],
    pub x: u32,
    pub y: u32,
}

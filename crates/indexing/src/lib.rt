// The words of an index, made from a line of zones by one sort of the edges.
#![tactic(auto)]

ghost use Rattle.std.specs.Prelude.{◌≡◌, true, false, ◌++◌, ℕ, suc, ◌+◌, ◌<◌, ◌≤◌, ◌/◌, ltb, length, get_or, set};
ghost use Rattle.subdivision.specs.Limits.{max_edges, max_zones};
ghost use Rattle.subdivision.specs.Layout.{index_need};
ghost use Rattle.subdivision.specs.Lists.{tab, put};
ghost use Rattle.subdivision.specs.Sheet.{edge_above, edge_below};
ghost use Rattle.subdivision.specs.ZoneLine.{position};
ghost use Rattle.indexing.specs.Keys.{placed_key};
ghost use Rattle.indexing.specs.Packed.{packed};

use numbers::dyadic::lca;
use numbers::layout::{entry_word, place_word, start_word, zone_word};
use numbers::words::write;
use sorting::keyed::group_by_key;
use subdivision::{MAX_EDGES, MAX_ZONES};
use tables::{Tables, edge_above, edge_below, edge_west, vertex_x, word};

// Writes the index of the tables and a line of their zones to the front of `index`; what is past it stays.
pub fn write_index(tables: Tables, line: &[u32], index: &mut [u32])
    requires edges_len_bound { ((length tables.edges.now / 4 ≤ max_edges) × (length line.now ≤ max_zones)) × (index_need (length line.now) (length tables.edges.now / 4) ≤ length index.old) }
    requires by_index { (z : ℕ) → z < length line.now → position z line.now < length line.now }
    requires by_index_2 { (e : ℕ) → e < length tables.edges.now / 4 → (edge_above tables.edges.now e < length line.now) × (edge_below tables.edges.now e < length line.now) }
    ensures { index.new ≡ put (packed tables.entry.vertices.now tables.entry.edges.now line.now) index.old }
{
    // A fixed buffer: no heap, memory of a known size.
    let mut place = [0u32; MAX_ZONES];
    let mut order = [0u32; MAX_EDGES];
    let mut starts = [0u32; MAX_ZONES + 1];
    let place = &mut place[..line.len()];
    let order = &mut order[..tables.edge_count()];
    let starts = &mut starts[..line.len() + 1];
    places(line, place);
    let place = &*place;
    group_by_key::<MAX_EDGES, _>(|e| chain_key(tables, place, e), order, starts);
    parts(place, line, starts, order, index);
}

// Writes to place z of `place` the place of z in `line`; what stands for a number that is not in the
// line stays.
fn places(line: &[u32], place: &mut [u32])
    requires { length line.now ≤ 4294967296 }
    ensures { place.new ≡ tab (λ z. elim (ltb (position z line.now) (length line.now)) [ true ↦ position z line.now | false ↦ get_or place.old z 0 ]) (length place.old) }
{
    for (p, z) in line.iter().enumerate().rev() {
        store(place, *z, p as u32);
    }
}

// Puts a word at a place of a table, and nowhere past its end.
fn store(table: &mut [u32], at: u32, word: u32)
    ensures { table.new ≡ set table.old at word }
{
    let i = at as usize;
    // Not `get_mut`: the proof does not close, since its contract says nothing of what the slice ends as.
    if i < table.len() {
        table[i] = word;
    }
}

// Writes the four parts of the index to its front, one after the other.
fn parts(place: &[u32], line: &[u32], starts: &[u32], entries: &[u32], index: &mut [u32])
    requires line_len_bound { (length line.now ≤ max_zones) × (index_need (length line.now) (length entries.now) ≤ length index.old) }
    requires place_len { (length place.now ≡ length line.now) × (length starts.now ≡ suc (length line.now)) }
    ensures { index.new ≡ put (place.now ++ (line.now ++ (starts.now ++ entries.now))) index.old }
{
    let n = line.len() as u32;
    write(place, index, place_word(n, 0));
    write(line, index, zone_word(n, 0));
    write(starts, index, start_word(n, 0));
    write(entries, index, entry_word(n, 0));
}

// The key of edge e: its chain, then its western x.
#[tactic(auto, unfolding(crate::specs::Keys::placed_key))]
fn chain_key(tables: Tables, place: &[u32], e: u32) -> u64
    ensures { result ≡ placed_key tables.entry.vertices.now tables.entry.edges.now place.now e }
{
    let below = word(place, edge_below(tables.edges, e) as usize);
    let above = word(place, edge_above(tables.edges, e) as usize);
    let x = vertex_x(tables.vertices, edge_west(tables.edges, e));
    (lca(below, above) as u64) * 4294967296 + (x as u64)
}

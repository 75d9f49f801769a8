// Leaves under the C ABI, for the tests in tests/rust. A `&[T]` is a pointer and then a length. What a
// caller owes (valid pointers, no overlap) no proof covers. C lends each table by itself, and gets a number where nothing is found.
#![tactic(auto)]

ghost use Rattle.std.specs.Prelude.{◌≡◌, length, drop};
ghost use Rattle.subdivision.specs.Formula.{holds};
ghost use Rattle.subdivision.specs.Dyadic.{bits, top_bit, lca};
ghost use Rattle.subdivision.specs.Sheet.{shifted, segment_of};
ghost use Rattle.subdivision.specs.Lines.{covers, side_at, conflict};
ghost use Rattle.subdivision.specs.Answers.{side_value};
ghost use Rattle.leaves.specs.Flags.{flag, sort_fits, sort_leaves};
ghost use Rattle.leaves.specs.Repeated.{repeat_among};

use subdivision::{MAX_VERTICES, Side};
use tables::{Tables, shifted};

// The bit length of k.
#[unsafe(no_mangle)]
pub extern "C" fn tw_bit_length(k: u32) -> u32
    ensures { result ≡ bits k }
{
    numbers::dyadic::bit_length(k)
}

// The top bit of k, and 0 for 0.
#[unsafe(no_mangle)]
pub extern "C" fn tw_top_bit(k: u32) -> u32
    ensures { result ≡ top_bit k }
{
    numbers::dyadic::top_bit(k)
}

// For i < j, the number of the chain of an edge between the places i and j.
#[unsafe(no_mangle)]
pub extern "C" fn tw_lca(i: u32, j: u32) -> u32
    ensures { result ≡ lca i j }
{
    numbers::dyadic::lca(i, j)
}

// A test as a word.
fn flag(b: bool) -> u32
    ensures { result ≡ flag b }
{
    u32::from(b)
}

// Sorts the numbers of `order`'s places by key, then number: 1, with anything left in as many places
// of `scratch`; or 0 and nothing written, where `scratch` is shorter or the numbers do not fit 32 bits.
#[unsafe(no_mangle)]
#[tactic(auto, unfolding(crate::specs::Flags::sort_fits, crate::specs::Flags::sort_leaves))]
pub extern "C" fn tw_sort(keys: &[u64], order: &mut [u32], scratch: &mut [u32]) -> u32
    ensures answer { result ≡ flag (sort_fits (length order.old) (length scratch.old)) }
    ensures written { order.new ≡ sort_leaves keys.now order.old (length scratch.old) }
    ensures refused { result ≡ 0 → scratch.new ≡ scratch.old }
    ensures spared { drop (length order.old) scratch.new ≡ drop (length order.old) scratch.old }
{
    if scratch.len() < order.len() || 4294967296 < order.len() {
        return 0;
    }
    sorting::order::sort(keys, order, scratch);
    1
}

// Refusal 5: the lowest vertex that is the same point as an earlier one, and the number of vertices
// where none is; 2^32 - 1 where there are more than the limit, which are not looked at.
#[unsafe(no_mangle)]
#[tactic(auto, unfolding(crate::specs::Repeated::repeat_among))]
pub extern "C" fn tw_first_repeat(vertices: &[i32]) -> u32
    ensures { result ≡ repeat_among vertices.now }
{
    let count = vertices.len() / 2;
    if MAX_VERTICES < count {
        return 4294967295;
    }
    repeats::first_repeat(vertices, count as u32).unwrap_or(count as u32)
}

// Edge e covers the abscissa x on a sheet with the eastern margin `east`: 1, or 0.
#[unsafe(no_mangle)]
pub extern "C" fn tw_covers(vertices: &[i32], edges: &[u32], east: i32, e: u32, x: i32) -> u32
    ensures { result ≡ flag (holds (covers (shifted east) (segment_of vertices.now edges.now e) (shifted x))) }
{
    let g = Tables { vertices, edges }.segment(e);
    let margin = shifted(east);
    let at = shifted(x);
    flag(geometry::lines::covers(margin, g, at))
}

// A side as a number: -1 below, 0 on, 1 above.
#[tactic(auto, unfolding(subdivision::specs::Answers::side_value))]
fn side_value(side: Side) -> i32
    ensures { result ≡ side_value side }
{
    match side {
        Side::Below => -1,
        Side::On => 0,
        Side::Above => 1,
    }
}

// The side of edge e on which the point (x, y) lies: -1 below, 0 on, 1 above.
#[unsafe(no_mangle)]
pub extern "C" fn tw_side(vertices: &[i32], edges: &[u32], e: u32, x: i32, y: i32) -> i32
    ensures { result ≡ side_value (side_at (segment_of vertices.now edges.now e) (shifted x) (shifted y)) }
{
    let g = Tables { vertices, edges }.segment(e);
    let px = shifted(x);
    let py = shifted(y);
    side_value(geometry::lines::side(g, px, py))
}

// Edges e and f break rule 4: 1, or 0.
#[unsafe(no_mangle)]
pub extern "C" fn tw_conflict(vertices: &[i32], edges: &[u32], e: u32, f: u32) -> u32
    ensures { result ≡ flag (holds (conflict (segment_of vertices.now edges.now e) (segment_of vertices.now edges.now f))) }
{
    let tables = Tables { vertices, edges };
    let g = tables.segment(e);
    let h = tables.segment(f);
    flag(geometry::lines::conflict(g, h))
}

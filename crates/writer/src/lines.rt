ghost use Rattle.std.specs.Prelude.{◌≡◌, ℕ, ◌+◌, ◌*◌, ◌/◌, ◌<◌, ◌≤◌, pos, length, get_or};
ghost use Rattle.std.specs.Int.Signed.{mag};
ghost use Rattle.subdivision.specs.Limits.{origin};
ghost use Rattle.subdivision.specs.Lists.{over};
ghost use Rattle.frames.specs.Texts.{numbers_text, frame_text, frames_text, pair_numbers, edge_numbers};

use hexadecimal::signs::word_of;
use texts::Text;

// Writes a frame as a line over a text from its place on, and goes to where it ends.
pub(crate) fn put_frame(kind: u32, numbers: &[u32], text: &mut Text)
    requires { (kind < 256) × (text.old.at + (3 + 8 * length numbers.now) ≤ length text.old.bytes.now) }
    ensures value { text.new.at ≡ text.old.at + (3 + 8 * length numbers.now) }
    ensures text_after { text.new.bytes.now ≡ over (frame_text kind numbers.now) text.old.bytes.now text.old.at }
    ensures same_text { text.new.bytes.ghost_name ≡ text.old.bytes.ghost_name }
{
    text.put_digits(kind, 2);
    put_numbers(numbers, text);
    text.put_bytes(b"\n");
}

// Writes numbers over a text from its place on, eight digits each, and goes to where they end.
fn put_numbers(numbers: &[u32], text: &mut Text)
    requires { text.old.at + 8 * length numbers.now ≤ length text.old.bytes.now }
    ensures value { text.new.at ≡ text.old.at + 8 * length numbers.now }
    ensures text_after { text.new.bytes.now ≡ over (numbers_text numbers.now) text.old.bytes.now text.old.at }
    ensures same_text { text.new.bytes.ghost_name ≡ text.old.bytes.ghost_name }
{
    for n in numbers {
        text.put_digits(*n, 8);
    }
}

// Writes the pairs of a table as frames of a kind over a text from its place on, and goes to where they end.
pub(crate) fn put_pairs(kind: u32, table: &[i32], text: &mut Text)
    requires { (kind < 256) × (text.old.at + 19 * (length table.now / 2) ≤ length text.old.bytes.now) }
    ensures value { text.new.at ≡ text.old.at + 19 * (length table.now / 2) }
    ensures text_after { text.new.bytes.now ≡ over (frames_text kind (pair_numbers table.now) (length table.now / 2)) text.old.bytes.now text.old.at }
    ensures same_text { text.new.bytes.ghost_name ≡ text.old.bytes.ghost_name }
    ensures by_index { (k : ℕ) → k < 2 * (length table.now / 2) → mag (get_or table.now k (pos 0)) < origin }
{
    for i in 0..table.len() / 2 {
        let numbers = [word_of(table[2 * i]), word_of(table[2 * i + 1])];
        put_frame(kind, &numbers, text);
    }
}

// Writes the edges of a table as frames over a text from its place on, and goes to where they end. One function for this and `put_pairs`
// is no plainer: it would take the width, the type of a word and how it is written, beside these two.
pub(crate) fn put_edges(table: &[u32], text: &mut Text)
    requires { text.old.at + 35 * (length table.now / 4) ≤ length text.old.bytes.now }
    ensures value { text.new.at ≡ text.old.at + 35 * (length table.now / 4) }
    ensures text_after { text.new.bytes.now ≡ over (frames_text 2 (edge_numbers table.now) (length table.now / 4)) text.old.bytes.now text.old.at }
    ensures same_text { text.new.bytes.ghost_name ≡ text.old.bytes.ghost_name }
    ensures fits { (k : ℕ) → get_or table.now k 0 < 4294967296 }
{
    for i in 0..table.len() / 4 {
        put_frame(2, &table[4 * i..4 * i + 4], text);
    }
}

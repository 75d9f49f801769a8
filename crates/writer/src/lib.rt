// The writer of a page of frames: a sheet with its points as text.
#![tactic(auto)]

ghost use Rattle.std.specs.Prelude.{◌≡◌, ◌↔◌, ℕ, ◌≤◌, length, take};
ghost use Rattle.subdivision.specs.Formula.{Means};
ghost use Rattle.subdivision.specs.Lists.{put};
ghost use Rattle.subdivision.specs.Faults.{GivenBy};
ghost use Rattle.subdivision.specs.Results.{refused};
ghost use Rattle.tables.specs.Lent.{lent};
ghost use Rattle.frames.specs.Texts.{page_text, writable_counts, write_page, writer_refusals, ReadsBack};
ghost use Rattle.framing.proofs.TextPages.{WordsFit};

use crate::lines::{put_edges, put_frame, put_pairs};
use counts::counts_kept;
use hexadecimal::signs::word_of;
use subdivision::Refused;
use tables::LentSheet;
use texts::Text;

mod lines;

// Writes a sheet with its points as a page to the front of `text`, and gives its length; or gives refusal 1 or 33 and
// writes nothing. It judges no content.
pub fn write_page(sheet: LentSheet, points: &[i32], text: &mut [u8]) -> Result<usize, Refused>
    ensures written { result ≡ (write_page (lent sheet.entry) points.now text.old).written }
    ensures text { text.new ≡ (write_page (lent sheet.entry) points.now text.old).text }
    ensures refused { (number item : ℕ) → (result ≡ refused number item) ↔ GivenBy (writer_refusals (lent sheet.entry) points.now (length text.old)) number item }
    ensures untouched { (number item : ℕ) → result ≡ refused number item → text.new ≡ text.old }
    ensures reads_back { (count : ℕ) → result ≡ Ok count → ReadsBack (lent sheet.entry) points.now (take count text.new) }
{
    let tables = sheet.tables;
    if !counts_kept(tables, sheet.zones) || points.len() % 2 != 0 {
        return Err(Refused { number: 1, item: 0 });
    }
    let rest = 43 + 19 * tables.vertex_count() + 35 * tables.edge_count();
    if text.len() / 19 < points.len() / 2 || text.len() - 19 * (points.len() / 2) < rest {
        return Err(Refused {
            number: 33,
            item: 0,
        });
    }
    Ok(put_page(sheet, points, text))
}

// Writes a page that has room, of tables within the limits, and says where it ends.
fn put_page(sheet: LentSheet, points: &[i32], text: &mut [u8]) -> usize
    requires means { Means (writable_counts (lent sheet) points.now) }
    requires points_in_bounds { length (page_text (lent sheet) points.now) ≤ length text.old }
    ensures value { result ≡ length (page_text (lent sheet.entry) points.now) }
    ensures text_after { text.new ≡ put (page_text (lent sheet.entry) points.now) text.old }
    ensures words_fit { WordsFit (lent sheet.entry) points.now }
{
    let tables = sheet.tables;
    let v = tables.vertex_count() as u32;
    let m = tables.edge_count() as u32;
    let head = [word_of(sheet.west), word_of(sheet.east), v, m, sheet.zones];
    let mut page = Text { bytes: text, at: 0 };
    put_frame(0, &head, &mut page);
    put_pairs(1, tables.vertices, &mut page);
    put_edges(tables.edges, &mut page);
    put_pairs(3, points, &mut page);
    page.at
}

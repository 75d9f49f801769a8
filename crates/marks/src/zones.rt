ghost use Rattle.std.specs.Prelude.{◌≡◌, not, false, ◌≤◌, ◌/◌, length, get_or};
ghost use Rattle.subdivision.specs.Limits.{max_edges, max_zones};
ghost use Rattle.subdivision.specs.Formula.{holds};
ghost use Rattle.subdivision.specs.Lowest.{first};
ghost use Rattle.subdivision.specs.Rules.{zone_named, empty_sheet};
ghost use Rattle.tables.specs.Lent.{lent};

use crate::marking::{Word, is_marked, mark_named};
use subdivision::MAX_ZONES;
use tables::LentSheet;

// Refusal 12: the lowest zone that no edge names, but on the sheet excepted in rule 6.
pub fn first_unnamed(sheet: LentSheet) -> Option<u32>
    requires { (sheet.zones ≤ max_zones) × (length sheet.tables.edges.now / 4 ≤ max_edges) }
    ensures { result ≡ first (λ z. not (holds (zone_named (lent sheet.entry) z))) sheet.entry.zones }
{
    if is_excepted(sheet) {
        return None;
    }
    // A fixed buffer: no heap, memory of a known size.
    let mut named = [false; MAX_ZONES];
    mark_named(sheet.tables.edges, Word::ZoneAbove, &mut named);
    mark_named(sheet.tables.edges, Word::ZoneBelow, &mut named);
    first_unmarked(&named, sheet.zones)
}

// Whether the sheet is the one excepted in rule 6: one zone, no vertex and no edge.
fn is_excepted(sheet: LentSheet) -> bool
    ensures { result ≡ holds (empty_sheet (lent sheet.entry)) }
{
    sheet.zones == 1 && sheet.tables.vertex_count() == 0 && sheet.tables.edge_count() == 0
}

// The lowest number below `count` that is not marked.
fn first_unmarked(marks: &[bool], count: u32) -> Option<u32>
    ensures { result ≡ first (λ k. not (get_or marks.now k false)) count }
{
    (0..count).find(|k| !is_marked(marks, *k))
}

ghost use Rattle.std.specs.Prelude.{◌≡◌, not, ◌≤◌, ◌/◌, length};
ghost use Rattle.subdivision.specs.Results.{passed};
ghost use Rattle.subdivision.specs.Limits.{max_edges, max_zones};
ghost use Rattle.subdivision.specs.Formula.{holds};
ghost use Rattle.subdivision.specs.Lowest.{first};
ghost use Rattle.subdivision.specs.ZoneLine.{is_in, zone_line};
ghost use Rattle.subdivision.specs.Refusals.{judged, limit_refusals};
ghost use Rattle.tables.specs.Lent.{lent};
ghost use Rattle.line.specs.Waiting.{zones_of};
ghost use Rattle.sheet.specs.Judgement.{record_refusals, drawing_refusals, zone_refusals, line_left, line_after, refuse};

use circles::lowest_on_circle;
use conflicts::first_conflict;
use fans::first_disagreement;
use line::zone_line;
use marks::vertices::first_irregular;
use marks::zones::first_unnamed;
use numbers::words::write;
use records::edges::{first_backward, first_misnamed, first_one_zoned};
use records::vertices::first_outside;
use repeats::first_repeat;
use subdivision::{MAX_ZONES, Refused};
use tables::LentSheet;

// Refuses with this number what was found at fault, if anything was.
fn refuse(number: u32, at_fault: Option<u32>) -> Result<(), Refused>
    ensures { result ≡ refuse number at_fault }
{
    match at_fault {
        Some(item) => Err(Refused { number, item }),
        None => Ok(()),
    }
}

// Refusals 4 to 8.
pub fn judge_records(sheet: LentSheet) -> Result<(), Refused>
    requires { judged (limit_refusals (lent sheet)) ≡ passed }
    ensures { result ≡ judged (record_refusals (lent sheet.entry)) }
{
    let tables = sheet.tables;
    let v = tables.vertex_count() as u32;
    let m = tables.edge_count() as u32;
    refuse(4, first_outside(sheet, v))?;
    refuse(5, first_repeat(tables.vertices, v))?;
    refuse(6, first_misnamed(tables, sheet.zones, m))?;
    refuse(7, first_backward(tables, m))?;
    refuse(8, first_one_zoned(tables.edges, m))
}

// Refusals 9 to 11, on tables whose records are in order.
pub fn judge_drawing(sheet: LentSheet) -> Result<(), Refused>
    requires limits { judged (limit_refusals (lent sheet)) ≡ passed }
    requires records { judged (record_refusals (lent sheet)) ≡ passed }
    ensures { result ≡ judged (drawing_refusals (lent sheet.entry)) }
{
    refuse(9, first_irregular(sheet))?;
    refuse(
        10,
        first_conflict(sheet.tables, sheet.tables.edge_count() as u32),
    )?;
    refuse(11, first_disagreement(sheet))
}

// Refusals 12 and 13, on tables whose records are in order, and the line of zones.
pub fn judge_zones(sheet: LentSheet, line: &mut [u32; MAX_ZONES]) -> Result<(), Refused>
    requires limits { judged (limit_refusals (lent sheet)) ≡ passed }
    requires records { judged (record_refusals (lent sheet)) ≡ passed }
    ensures verdict { result ≡ judged (zone_refusals (lent sheet.entry)) }
    ensures written { line.new ≡ line_left (lent sheet.entry) result line.old }
{
    let edges = sheet.tables.edges;
    refuse(12, first_unnamed(sheet))?;
    // A fixed buffer: no heap, memory of a known size.
    let mut found = [0u32; MAX_ZONES];
    match line_through(edges, sheet.zones, &mut found, line) {
        Some(_) => {
            let circle = lowest_on_circle(edges, sheet.zones);
            refuse(13, circle)
        }
        None => Ok(()),
    }
}

// The lowest zone that the line of rule 7 does not place, found in lent words; where it places all, the line is written to the front
// of `line` too.
fn line_through(edges: &[u32], zones: u32, found: &mut [u32], line: &mut [u32]) -> Option<u32>
    requires edges_len_bound { (length edges.now / 4 ≤ max_edges) × (zones ≤ max_zones) }
    requires zones_in_bounds { (zones ≤ length found.old) × (zones ≤ length line.old) }
    ensures left { result ≡ first (λ z. not (holds (is_in z (zone_line (zones_of edges.now zones))))) zones }
    ensures written { line.new ≡ line_after (zones_of edges.now zones) result line.old }
{
    let left = zone_line(edges, zones, found);
    if left.is_none() {
        write(&found[..zones as usize], line, 0);
    }
    left
}

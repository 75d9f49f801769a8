// The plain reading of a point: the tables are judged, and then every vertex and every edge is looked at. It needs no index.
#![tactic(auto)]

ghost use Rattle.std.specs.Prelude.{◌≡◌, ◌↔◌, ℕ};
ghost use Rattle.subdivision.specs.Results.{refused};
ghost use Rattle.subdivision.specs.Sheet.{shifted};
ghost use Rattle.subdivision.specs.Faults.{GivenBy, LowestOnCircle, reading_refusals};
ghost use Rattle.subdivision.specs.Earlier.{earlier_reading_refusals, GivenAsBefore};
ghost use Rattle.subdivision.specs.Placed.{OneThingOnly, ReadingsAgree};
ghost use Rattle.subdivision.specs.Calls.{reading};
ghost use Rattle.subdivision.specs.Signed.{ReadAsSigned};
ghost use Rattle.tables.specs.Lent.{lent};

use records::vertices::on_sheet;
use scans::Scan;
use subdivision::{Answer, MAX_ZONES, Refused};
use tables::{LentSheet, shifted};

// Reads the point (x, y): the vertex that it equals, else the edge that it lies on, else the zone; or
// one of the refusals 1, 2, 4 to 13 and 20, in that order.
pub fn read_point(sheet: LentSheet, x: i32, y: i32) -> Result<Answer, Refused>
    ensures answer { result ≡ reading (lent sheet.entry) x y }
    ensures refused { (number item : ℕ) → (result ≡ refused number item) ↔ GivenBy (reading_refusals (lent sheet.entry) (shifted x) (shifted y)) number item }
    ensures one_thing { OneThingOnly (lent sheet.entry) (shifted x) (shifted y) result }
    ensures agreed { ReadingsAgree (lent sheet.entry) (shifted x) (shifted y) result }
    ensures circle { (item : ℕ) → result ≡ refused 13 item → LowestOnCircle (lent sheet.entry) item }
    ensures as_before { GivenAsBefore (earlier_reading_refusals (lent sheet.entry) (shifted x) (shifted y)) (λ number item. result ≡ refused number item) }
    ensures signed { ReadAsSigned (lent sheet.entry) x y result }
{
    // A fixed buffer: no heap, memory of a known size.
    let mut line = [0u32; MAX_ZONES];
    sheet::rules(sheet, &mut line)?;
    let scan = Scan {
        margin: shifted(sheet.east),
        tables: sheet.tables,
        x: shifted(x),
        y: shifted(y),
    };
    if !on_sheet(shifted(sheet.west), scan.margin, scan.x, scan.y) {
        return Err(Refused {
            number: 20,
            item: 0,
        });
    }
    Ok(scan.place(line[0]))
}

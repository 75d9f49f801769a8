// The judgement of the tables: the limits, and the rules with the line of zones.
#![tactic(auto)]

ghost use Rattle.std.specs.Prelude.{◌≡◌, ◌↔◌, ℕ};
ghost use Rattle.subdivision.specs.Results.{passed, refused};
ghost use Rattle.subdivision.specs.Refusals.{judged, limit_refusals};
ghost use Rattle.subdivision.specs.Faults.{GivenBy, LowestOnCircle, table_refusals};
ghost use Rattle.subdivision.specs.Accepted.{Accepted};
ghost use Rattle.subdivision.specs.Earlier.{earlier_table_refusals, GivenAsBefore};
ghost use Rattle.tables.specs.Lent.{lent};
ghost use Rattle.sheet.specs.Judgement.{line_left};

use crate::margins::margins_kept;
use crate::parts::{judge_drawing, judge_records, judge_zones};
use counts::counts_kept;
use subdivision::{MAX_ZONES, Refused};
use tables::LentSheet;

mod margins;
mod parts;

// The limits: refusal 1, then refusal 2.
pub fn limits(sheet: LentSheet) -> Result<(), Refused>
    ensures { result ≡ judged (limit_refusals (lent sheet.entry)) }
{
    if !counts_kept(sheet.tables, sheet.zones) {
        return Err(Refused { number: 1, item: 0 });
    }
    if !margins_kept(sheet.west, sheet.east) {
        return Err(Refused { number: 2, item: 0 });
    }
    Ok(())
}

// The tables judged: refusals 1, 2 and 4 to 13, in order. Where they pass, the line of zones is
// written to the front of `line`; a refusal writes nothing.
pub fn rules(sheet: LentSheet, line: &mut [u32; MAX_ZONES]) -> Result<(), Refused>
    ensures verdict { result ≡ judged (table_refusals (lent sheet.entry)) }
    ensures written { line.new ≡ line_left (lent sheet.entry) result line.old }
    ensures accepted { (result ≡ passed) ↔ Accepted (lent sheet.entry) }
    ensures refused { (number item : ℕ) → (result ≡ refused number item) ↔ GivenBy (table_refusals (lent sheet.entry)) number item }
    ensures circle { (item : ℕ) → result ≡ refused 13 item → LowestOnCircle (lent sheet.entry) item }
    ensures as_before { GivenAsBefore (earlier_table_refusals (lent sheet.entry)) (λ number item. result ≡ refused number item) }
{
    limits(sheet)?;
    judge_records(sheet)?;
    judge_drawing(sheet)?;
    judge_zones(sheet, line)
}

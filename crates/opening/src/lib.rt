// Opening a sheet: the judgement, then the index.
#![tactic(auto)]

ghost use Rattle.std.specs.Prelude.{◌≡◌, ◌↔◌, ℕ, ◌≤◌, ◌/◌, length};
ghost use Rattle.subdivision.specs.Results.{passed, refused};
ghost use Rattle.subdivision.specs.Lists.{put};
ghost use Rattle.subdivision.specs.Layout.{index_need};
ghost use Rattle.subdivision.specs.Faults.{GivenBy, LowestOnCircle, opening_refusals};
ghost use Rattle.subdivision.specs.Accepted.{Accepted};
ghost use Rattle.subdivision.specs.Earlier.{earlier_opening_refusals, GivenAsBefore};
ghost use Rattle.subdivision.specs.Index.{index_words};
ghost use Rattle.subdivision.specs.Engine.{HoldsIndex};
ghost use Rattle.subdivision.specs.Calls.{opening};
ghost use Rattle.subdivision.specs.Signed.{OpenedAsSigned};
ghost use Rattle.tables.specs.Lent.{lent};

use indexing::write_index;
use numbers::layout::need;
use sheet::{limits, rules};
use subdivision::{MAX_ZONES, Refused};
use tables::LentSheet;

// Opens a sheet: checks 1 to 13 in order, then writes the index to the front of `index`. A refusal writes nothing.
pub fn open_sheet(sheet: LentSheet, index: &mut [u32]) -> Result<(), Refused>
    ensures verdict { result ≡ (opening (lent sheet.entry) index.old).verdict }
    ensures words { index.new ≡ (opening (lent sheet.entry) index.old).index }
    ensures opened { (result ≡ passed) ↔ (Accepted (lent sheet.entry) × (index_need sheet.entry.zones (length sheet.entry.tables.edges.now / 4) ≤ length index.old)) }
    ensures refused { (number item : ℕ) → (result ≡ refused number item) ↔ GivenBy (opening_refusals (lent sheet.entry) (length index.old)) number item }
    ensures written { result ≡ passed → (index.new ≡ put (index_words (lent sheet.entry)) index.old) × (length (index_words (lent sheet.entry)) ≡ index_need sheet.entry.zones (length sheet.entry.tables.edges.now / 4)) }
    ensures untouched { (number item : ℕ) → result ≡ refused number item → index.new ≡ index.old }
    ensures indexed { result ≡ passed → HoldsIndex (lent sheet.entry) index.new }
    ensures circle { (item : ℕ) → result ≡ refused 13 item → LowestOnCircle (lent sheet.entry) item }
    ensures as_before { GivenAsBefore (earlier_opening_refusals (lent sheet.entry) (length index.old)) (λ number item. result ≡ refused number item) }
    ensures signed { OpenedAsSigned (lent sheet.entry) index.old result index.new }
{
    limits(sheet)?;
    if index.len() < need(sheet.zones as usize, sheet.tables.edge_count()) {
        return Err(Refused { number: 3, item: 0 });
    }
    // A fixed buffer: no heap, memory of a known size.
    let mut line = [0u32; MAX_ZONES];
    rules(sheet, &mut line)?;
    write_index(sheet.tables, &line[..sheet.zones as usize], index);
    Ok(())
}

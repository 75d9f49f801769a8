// The monthly ledger: the samples of a month are placed by the quick search, and each zone is judged by those that lie in it.
#![tactic(auto)]

ghost use Rattle.std.specs.Prelude.{◌≡◌, ◌↔◌, ℕ, ◌*◌, ◌≤◌, length};
ghost use Rattle.subdivision.specs.Faults.{GivenBy};
ghost use Rattle.subdivision.specs.Results.{refused};
ghost use Rattle.ledger.specs.Results.{listed};
ghost use Rattle.ledger.specs.Months.{max_samples, lent_of, month_refusals, searched_at, month_of};
ghost use Rattle.ledger.specs.Promises.{left_of, OnePlace, CountsSamples, OneValue, OutsideChangesNothing, ReadPlainly};
ghost use Rattle.tables.specs.Lent.{lent};
ghost use Rattle.tallies.specs.Lent.{lent_samples};
ghost use Rattle.samples.specs.Room.{samples_in};
ghost use Rattle.samples.specs.Zones.{left_by};

use crate::checks::check_lent;
use ledger::{Listed, MAX_SAMPLES};
use samples::Spot;
use samples::faults::first_coarse;
use samples::lists::list_those;
use samples::places::place_samples;
use samples::room::{Permits, Samples};
use samples::zones::judge_zones;
use subdivision::Refused;
use tables::LentSheet;
use tallies::LentSamples;

mod checks;

// Judges a month: the taken samples on a boundary and those off the sheet are listed, each zone has its count, its count below
// detection and its judgement written, and its mean where it has one; or it gives one of the refusals 1, 2, 3, 43, 42, 40, 22 and
// 41, in that order, and writes nothing.
pub fn judge_month(
    sheet: LentSheet,
    index: &[u32],
    samples: LentSamples,
    permits: &[f64],
    boundary: &mut [u32],
    off: &mut [u32],
    results: &mut [u32],
    means: &mut [f64],
) -> Result<Listed, Refused>
    ensures left { left_of result boundary.new off.new results.new means.new ≡ month_of (lent sheet.entry) index.now (lent_samples samples.entry) permits.now (lent_of boundary.old off.old results.old means.old) }
    ensures refused { (number item : ℕ) → (result ≡ refused number item) ↔ GivenBy (month_refusals (searched_at (lent sheet.entry) index.now (lent_samples samples.entry)) (lent_samples samples.entry) permits.now (lent sheet.entry) (length index.now) (lent_of boundary.old off.old results.old means.old)) number item }
    ensures untouched { (number item : ℕ) → result ≡ refused number item → lent_of boundary.new off.new results.new means.new ≡ lent_of boundary.old off.old results.old means.old }
    ensures one_place { (on away : ℕ) → result ≡ listed on away → OnePlace (searched_at (lent sheet.entry) index.now (lent_samples samples.entry)) (lent_samples samples.entry) sheet.entry.zones × CountsSamples (searched_at (lent sheet.entry) index.now (lent_samples samples.entry)) (lent_samples samples.entry) sheet.entry.zones results.new }
    ensures one_value { (on away : ℕ) → result ≡ listed on away → OneValue (searched_at (lent sheet.entry) index.now (lent_samples samples.entry)) (lent_samples samples.entry) sheet.entry.zones means.new }
    ensures outside { (on away : ℕ) → result ≡ listed on away → OutsideChangesNothing (lent sheet.entry) index.now (lent_samples samples.entry) permits.now (lent_of boundary.old off.old results.old means.old) results.new means.new }
    ensures read_plainly { ReadPlainly (lent sheet.entry) index.now (lent_samples samples.entry) permits.now (lent_of boundary.old off.old results.old means.old) (left_of result boundary.new off.new results.new means.new) }
{
    let (samples, permits) = check_lent(
        sheet, index, samples, permits, boundary, off, results, means,
    )?;
    // A fixed buffer: no heap, memory of a known size.
    let mut places = [Spot::Untaken; MAX_SAMPLES];
    if let Some(k) = place_samples(sheet, index, samples, &mut places) {
        return Err(Refused {
            number: 22,
            item: k as u32,
        });
    }
    enter_month(
        samples,
        &places[..samples.count()],
        permits,
        boundary,
        off,
        results,
        means,
    )
}

// Judges a month whose samples lie so.
fn enter_month(
    samples: Samples,
    places: &[Spot],
    permits: Permits,
    boundary: &mut [u32],
    off: &mut [u32],
    results: &mut [u32],
    means: &mut [f64],
) -> Result<Listed, Refused>
    requires places_len { (length samples.kinds.now ≤ max_samples) × (length places.now ≡ length samples.kinds.now) }
    requires kinds_in_bounds { (length samples.kinds.now ≤ length boundary.old) × (length samples.kinds.now ≤ length off.old) }
    requires zones_in_bounds { (3 * permits.zones ≤ length results.old) × (permits.zones ≤ length means.old) }
    ensures { left_of result boundary.new off.new results.new means.new ≡ left_by (samples_in samples.entry) places.now permits.entry.words.now permits.entry.zones (lent_of boundary.old off.old results.old means.old) }
{
    if let Some(k) = first_coarse(samples, places, permits) {
        return Err(Refused {
            number: 41,
            item: k as u32,
        });
    }
    let on = list_those(places, Spot::Boundary, boundary);
    let away = list_those(places, Spot::OffSheet, off);
    judge_zones(samples, places, permits, results, means);
    Ok(Listed {
        boundary: on,
        off: away,
    })
}

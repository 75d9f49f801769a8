ghost use Rattle.std.specs.Prelude.{◌≡◌, length, MatchResult, Err};
ghost use Rattle.subdivision.specs.Results.{passed};
ghost use Rattle.subdivision.specs.Refusals.{judged};
ghost use Rattle.ledger.specs.Months.{lent_of};
ghost use Rattle.tables.specs.Lent.{lent};
ghost use Rattle.tallies.specs.Lent.{lent_samples};
ghost use Rattle.samples.specs.Room.{HasRoom};
ghost use Rattle.months.specs.Lines.{lent_refusals};

use numbers::layout::need;
use samples::faults::{first_bad_permit, first_bad_reading};
use samples::room::{Permits, Samples};
use subdivision::Refused;
use tables::LentSheet;
use tallies::LentSamples;

// The month's refusals before a sample is placed, in order: 1, 2, 3, 43, 42 and 40; where none is given, the samples and the permits,
// for which there is room.
pub(crate) fn check_lent<'a>(
    sheet: LentSheet,
    index: &[u32],
    samples: LentSamples<'a>,
    permits: &'a [f64],
    boundary: &[u32],
    off: &[u32],
    results: &[u32],
    means: &[f64],
) -> Result<(Samples<'a>, Permits<'a>), Refused>
    ensures { MatchResult result
        (λ r. (judged (lent_refusals (lent sheet.entry) (length index.now) (lent_samples samples.entry) permits.now (lent_of boundary.now off.now results.now means.now)) ≡ passed)
        × HasRoom (lent_samples samples.entry) permits.now sheet.entry.zones (lent_of boundary.now off.now results.now means.now) r.0 r.1)
        (λ e. judged (lent_refusals (lent sheet.entry) (length index.now) (lent_samples samples.entry) permits.now (lent_of boundary.now off.now results.now means.now)) ≡ Err e) }
{
    sheet::limits(sheet)?;
    if index.len() < need(sheet.zones as usize, sheet.tables.edge_count()) {
        return Err(Refused { number: 3, item: 0 });
    }
    let Some((samples, permits)) = Samples::with_room(
        samples,
        permits,
        sheet.zones,
        boundary,
        off,
        results,
        means,
    ) else {
        return Err(Refused {
            number: 43,
            item: 0,
        });
    };
    if let Some(z) = first_bad_permit(permits) {
        return Err(Refused {
            number: 42,
            item: z,
        });
    }
    if let Some(k) = first_bad_reading(samples) {
        return Err(Refused {
            number: 40,
            item: k as u32,
        });
    }
    Ok((samples, permits))
}

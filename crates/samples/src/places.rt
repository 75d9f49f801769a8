ghost use Rattle.std.specs.Prelude.{◌≡◌, ◌*◌, ◌<◌, ◌≤◌, length, replicate};
ghost use Rattle.subdivision.specs.Limits.{max_examined};
ghost use Rattle.subdivision.specs.Lists.{tab, put};
ghost use Rattle.subdivision.specs.Lowest.{lowest, first};
ghost use Rattle.subdivision.specs.Results.{reply_of};
ghost use Rattle.subdivision.specs.Calls.{searching};
ghost use Rattle.tables.specs.Lent.{lent};
ghost use Rattle.samples.specs.Room.{samples_in};
ghost use Rattle.samples.specs.Spots.{answer_spot, found_spot, spot_in, nowhere};

use crate::Spot;
use crate::room::Samples;
use search::search_point;
use subdivision::{Answer, MAX_EXAMINED, Refused};
use tables::LentSheet;
use tallies::is_taken;

// Places the samples in order, where each lies to the front of `places`, up to the lowest taken one that the search refuses with 22,
// whose number it gives.
pub fn place_samples(
    sheet: LentSheet,
    index: &[u32],
    samples: Samples,
    places: &mut [Spot],
) -> Option<usize>
    requires { (length samples.points.now ≡ 2 * length samples.kinds.now) × (length samples.kinds.now ≤ length places.old) }
    ensures value { result ≡ first (λ k. nowhere (found_spot (lent sheet.entry) index.now (samples_in samples.entry) k)) (length samples.entry.kinds.now) }
    ensures places_after { places.new ≡ put (tab (λ k. spot_in (found_spot (lent sheet.entry) index.now (samples_in samples.entry) k)) (lowest (λ k. nowhere (found_spot (lent sheet.entry) index.now (samples_in samples.entry) k)) (length samples.entry.kinds.now))) places.old }
{
    for k in 0..samples.count() {
        let Some(spot) = place_sample(sheet, index, samples, k) else {
            return Some(k);
        };
        places[k] = spot;
    }
    None
}

// Where sample k lies; none where the search refuses it otherwise than by 20.
#[tactic(auto, unfolding(ledger::specs::Months::searched_at))]
fn place_sample(sheet: LentSheet, index: &[u32], samples: Samples, k: usize) -> Option<Spot>
    requires { (k < length samples.kinds.now) × (length samples.points.now ≡ 2 * length samples.kinds.now) }
    ensures { result ≡ found_spot (lent sheet.entry) index.now (samples_in samples.entry) k }
{
    if !is_taken(samples.reading(k)) {
        return Some(Spot::Untaken);
    }
    let (x, y) = samples.point(k);
    place_point(sheet, index, x, y)
}

// Where a point lies, searched for over a trail of its own.
fn place_point(sheet: LentSheet, index: &[u32], x: i32, y: i32) -> Option<Spot>
    ensures { result ≡ answer_spot (reply_of (searching (lent sheet.entry) index.now x y (replicate max_examined 0)).found) }
{
    // A fixed buffer: no heap, memory of a known size.
    let mut trail = [0u32; MAX_EXAMINED];
    match search_point(sheet, index, x, y, &mut trail) {
        Ok(found) => Some(match found.answer {
            Answer::Vertex(_) | Answer::Edge(_) => Spot::Boundary,
            Answer::Zone(z) => Spot::Zone(z),
        }),
        Err(Refused { number: 20, .. }) => Some(Spot::OffSheet),
        Err(_) => None,
    }
}

ghost use Rattle.std.specs.Prelude.{◌≡◌, not, ◌≤◌, length, get_or};
ghost use Rattle.subdivision.specs.Formula.{holds};
ghost use Rattle.subdivision.specs.Lowest.{first};
ghost use Rattle.ledger.specs.Readings.{passes, permit_of, permit_sound, reading_sound};
ghost use Rattle.ledger.specs.Months.{reading_at};
ghost use Rattle.samples.specs.declared.Spot.{Spot};
ghost use Rattle.samples.specs.Room.{samples_in};
ghost use Rattle.samples.specs.Spots.{coarse};

use crate::Spot;
use crate::room::{Permits, Samples};
use ledger::Reading;
use tallies::{permit_sound, reading_sound};

// The lowest zone whose permit is outside the range.
pub fn first_bad_permit(permits: Permits) -> Option<u32>
    ensures { result ≡ first (λ z. not (holds (permit_sound (permit_of permits.entry.words.now z)))) permits.entry.zones }
{
    (0..permits.zones()).find(|z| !permit_sound(permits.of(*z)))
}

// The lowest sample whose reading is none of the three or carries a value outside the range.
pub fn first_bad_reading(samples: Samples) -> Option<usize>
    ensures { result ≡ first (λ k. not (holds (passes (reading_sound (reading_at (samples_in samples.entry) k))))) (length samples.entry.kinds.now) }
{
    (0..samples.count()).find(|k| !reading_sound(samples.reading(*k)))
}

// The lowest sample below detection whose own limit is above the floor of the zone in which it lies.
pub fn first_coarse(samples: Samples, places: &[Spot], permits: Permits) -> Option<usize>
    requires { length places.now ≡ length samples.kinds.now }
    ensures { result ≡ first (λ k. coarse permits.entry.words.now permits.entry.zones (reading_at (samples_in samples.entry) k) (get_or places.now k Spot.Untaken)) (length samples.entry.kinds.now) }
{
    (0..samples.count()).find(|k| is_coarse(samples.reading(*k), places[*k], permits))
}

// Whether a reading is below detection, with its own limit above the floor of the zone of this spot.
fn is_coarse(reading: Reading, spot: Spot, permits: Permits) -> bool
    ensures { result ≡ coarse permits.entry.words.now permits.entry.zones reading spot }
{
    match (reading, spot) {
        (Reading::BelowDetection(limit), Spot::Zone(z)) => {
            z < permits.zones() && permits.of(z).floor < limit
        }
        _ => false,
    }
}

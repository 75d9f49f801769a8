// What a sample's reading is, what it enters for its zone, and the month's judgement of a zone.
#![tactic(auto)]

ghost use Rattle.std.specs.Prelude.{◌≡◌, ◌+◌, ◌*◌, ◌<◌, length};
ghost use Rattle.subdivision.specs.Formula.{holds};
ghost use Rattle.ledger.specs.Readings.{in_range, reading_of, taken, reading_sound, permit_of, permit_sound};
ghost use Rattle.ledger.specs.Tallies.{with_value, enter, judge};
ghost use Rattle.ledger.specs.Months.{max_samples};

use ledger::{Judgement, Permit, Reading, Tally};

// The samples of a month as they are lent.
#[derive(Clone, Copy)]
pub struct LentSamples<'a> {
    // The x and the y of each sample.
    pub points: &'a [i32],
    // What each sample's reading is: 0 not taken, 1 measured, 2 below detection.
    pub kinds: &'a [u32],
    // The value of each sample, or the detection limit that it was below.
    pub values: &'a [f64],
}

// Whether a value is greater than 0 and at most 1,000 mg/L; not-a-number is not.
#[tactic(auto, unfolding(ledger::specs::Readings::in_range))]
pub fn in_range(v: f64) -> bool
    ensures { result ≡ in_range v }
{
    0.0 < v && v <= 1000.0
}

// The reading of a lent kind and value.
#[tactic(auto, unfolding(ledger::specs::Readings::reading_of))]
pub fn reading_of(kind: u32, value: f64) -> Reading
    ensures { result ≡ reading_of kind value }
{
    match kind {
        0 => Reading::NotTaken,
        1 => Reading::Measured(value),
        2 => Reading::BelowDetection(value),
        _ => Reading::Unknown,
    }
}

// Whether a reading is one of the three, with what it carries in range.
pub fn reading_sound(reading: Reading) -> bool
    ensures { result ≡ reading_sound reading }
{
    match reading {
        Reading::NotTaken => true,
        Reading::Measured(value) | Reading::BelowDetection(value) => in_range(value),
        Reading::Unknown => false,
    }
}

// Whether a reading was taken.
pub fn is_taken(reading: Reading) -> bool
    ensures { result ≡ taken reading }
{
    matches!(reading, Reading::Measured(_) | Reading::BelowDetection(_))
}

// The permit of zone z.
pub fn permit_of(permits: &[f64], z: usize) -> Permit
    requires { 2 * z + 1 < length permits.now }
    ensures { result ≡ permit_of permits.now z }
{
    Permit {
        limit: permits[2 * z],
        floor: permits[2 * z + 1],
    }
}

// Whether a permit's limit and floor are in range.
pub fn permit_sound(permit: Permit) -> bool
    ensures { result ≡ holds (permit_sound permit) }
{
    in_range(permit.limit) && in_range(permit.floor)
}

// One reading more.
pub fn enter(tally: Tally, reading: Reading) -> Tally
    requires { (tally.count < max_samples) × (tally.below < max_samples) }
    ensures { result ≡ enter tally reading }
{
    match reading {
        Reading::Measured(value) => with_value(tally, value, 0),
        Reading::BelowDetection(limit) => with_value(tally, limit, 1),
        Reading::NotTaken | Reading::Unknown => tally,
    }
}

// One value more, of a reading that adds so many to those below detection.
fn with_value(tally: Tally, value: f64, below: u32) -> Tally
    requires { (tally.count < max_samples) × ((tally.below < max_samples) × (below < 2)) }
    ensures { result ≡ with_value tally value below }
{
    Tally {
        count: tally.count + 1,
        below: tally.below + below,
        sum: if tally.count == 0 {
            value
        } else {
            tally.sum + value
        },
    }
}

// The month's judgement of a zone with this permit, of what is entered for it.
#[tactic(auto, unfolding(ledger::specs::Tallies::judge))]
pub fn judge(permit: Permit, tally: Tally) -> Judgement
    ensures { result ≡ judge permit tally }
{
    if tally.count == 0 {
        return Judgement::NoMean;
    }
    let mean = tally.sum / (tally.count as f64);
    if mean > permit.limit {
        Judgement::Over(mean)
    } else {
        Judgement::Within(mean)
    }
}

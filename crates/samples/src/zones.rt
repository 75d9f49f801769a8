ghost use Rattle.std.specs.Prelude.{◌≡◌, ◌+◌, ◌*◌, ◌<◌, ◌≤◌, length, get_or};
ghost use Rattle.subdivision.specs.Lists.{tab, put, over};
ghost use Rattle.ledger.specs.Months.{max_samples};
ghost use Rattle.ledger.specs.Tallies.{judgement_word, write_mean};
ghost use Rattle.samples.specs.declared.Spot.{Spot};
ghost use Rattle.samples.specs.Room.{samples_in};
ghost use Rattle.samples.specs.Spots.{zone_number};
ghost use Rattle.samples.specs.Zones.{zone_words, tally_over, words_by, means_by};

use crate::Spot;
use crate::room::{Permits, Samples};
use ledger::{Judgement, MAX_SAMPLES, Tally};
use tallies::{enter, judge};

// Judges each zone by the samples that lie in it, and writes its three words and its mean, where there is one.
pub fn judge_zones(
    samples: Samples,
    places: &[Spot],
    permits: Permits,
    results: &mut [u32],
    means: &mut [f64],
)
    requires places_len { (length samples.kinds.now ≤ max_samples) × (length places.now ≡ length samples.kinds.now) }
    requires zones_in_bounds { (3 * permits.zones ≤ length results.old) × (permits.zones ≤ length means.old) }
    ensures results_after { results.new ≡ put (words_by (samples_in samples.entry) places.now permits.entry.words.now permits.entry.zones) results.old }
    ensures means_after { means.new ≡ means_by (samples_in samples.entry) places.now permits.entry.words.now means.old permits.entry.zones }
{
    // A fixed buffer: no heap, memory of a known size. Each zone looks through all samples, and a number is looked at faster than a spot.
    let mut numbers = [0u32; MAX_SAMPLES];
    let numbers = &mut numbers[..places.len()];
    number_zones(places, numbers);
    for z in 0..permits.zones() {
        let tally = tally_zone(samples, numbers, z);
        let judgement = judge(permits.of(z), tally);
        write_words(tally, judgement, results, z as usize);
        write_mean(judgement, means, z as usize);
    }
}

// Writes the number of each sample's zone to its place of `numbers`, and a number that no zone has where it lies in none.
fn number_zones(places: &[Spot], numbers: &mut [u32])
    requires { length numbers.old ≡ length places.now }
    ensures { numbers.new ≡ tab (λ k. zone_number (get_or places.now k Spot.Untaken)) (length places.now) }
{
    for (k, number) in numbers.iter_mut().enumerate() {
        *number = zone_number(places[k]);
    }
}

// The number of a spot's zone, and a number that no zone has where it is none.
fn zone_number(spot: Spot) -> u32
    ensures { result ≡ zone_number spot }
{
    match spot {
        Spot::Zone(z) => z,
        Spot::Untaken | Spot::Boundary | Spot::OffSheet => 4294967295,
    }
}

// What is entered for zone z: the readings of the samples that have its number, in order.
fn tally_zone(samples: Samples, numbers: &[u32], z: u32) -> Tally
    requires { (length samples.kinds.now ≤ max_samples) × (length numbers.now ≡ length samples.kinds.now) }
    ensures { result ≡ tally_over (samples_in samples.entry) numbers.now z (length numbers.now) }
{
    let mut tally = Tally {
        count: 0,
        below: 0,
        sum: 0.0,
    };
    for k in 0..numbers.len() {
        if numbers[k] == z {
            tally = enter(tally, samples.reading(k));
        }
    }
    tally
}

// Writes the three words of zone z.
fn write_words(tally: Tally, judgement: Judgement, results: &mut [u32], z: usize)
    requires { 3 * z + 3 ≤ length results.old }
    ensures { results.new ≡ over (zone_words tally judgement) results.old (3 * z) }
{
    let words = [tally.count, tally.below, judgement_word(judgement)];
    results[3 * z..3 * z + 3].copy_from_slice(&words);
}

// The word of a judgement.
fn judgement_word(judgement: Judgement) -> u32
    ensures { result ≡ judgement_word judgement }
{
    match judgement {
        Judgement::NoMean => 0,
        Judgement::Within(_) => 1,
        Judgement::Over(_) => 2,
    }
}

// Writes the mean of zone z, where there is one.
fn write_mean(judgement: Judgement, means: &mut [f64], z: usize)
    requires { z < length means.old }
    ensures { means.new ≡ write_mean judgement means.old z }
{
    if let Judgement::Within(mean) | Judgement::Over(mean) = judgement {
        means[z] = mean;
    }
}

ghost use Rattle.std.specs.Prelude.{◌≡◌, false, [], ◌*◌, ◌<◌, ◌≤◌, pos, length, MatchOption};
ghost use Rattle.subdivision.specs.Formula.{holds};
ghost use Rattle.subdivision.specs.Sheet.{sheet_of};
ghost use Rattle.ledger.specs.Months.{lent_of, room_kept};
ghost use Rattle.tallies.specs.Lent.{lent_samples};
ghost use Rattle.samples.specs.Doubles.{Doubles};

use ledger::{MAX_SAMPLES, Permit, Reading};
use tallies::{LentSamples, permit_of, reading_of};

// Lent samples, each with a value. That they are few and have points is no invariant, since `first_coarse` asks for neither.
#[derive(Clone, Copy)]
pub struct Samples<'a> {
    points: &'a [i32],
    kinds: &'a [u32],
    values: &'a [f64],
    pub ghost valued: { length values.now ≡ length kinds.now },
    pub ghost doubles: { Doubles values.now },
}

// Lent permits that 43 does not refuse: there is one for each zone.
#[derive(Clone, Copy)]
pub struct Permits<'a> {
    words: &'a [f64],
    zones: u32,
    pub ghost enough: { 2 * zones ≤ length words.now },
}

impl<'a> Samples<'a> {
    ghost use Rattle.ledger.specs.Months.{samples_of, reading_at, sample_x, sample_y};
    ghost use Rattle.samples.specs.Room.{samples_in, HasRoom};

    // The lent samples and permits, where they and what is lent beside them have the room that 43 asks for: the parameters that
    // become the two structs.
    pub fn with_room(
        samples: LentSamples<'a>,
        permits: &'a [f64],
        zones: u32,
        boundary: &[u32],
        off: &[u32],
        results: &[u32],
        means: &[f64],
    ) -> Option<(Self, Permits<'a>)>
        ensures { MatchOption result (holds (room_kept (lent_samples samples.entry) permits.now (sheet_of (pos 0) (pos 0) [] [] zones) (lent_of boundary.now off.now results.now means.now)) ≡ false) (λ r. HasRoom (lent_samples samples.entry) permits.now zones (lent_of boundary.now off.now results.now means.now) r.0 r.1) }
    {
        if !has_room(samples, permits, zones, boundary, off, results, means) {
            return None;
        }
        Some((
            Samples::new(samples.points, samples.kinds, samples.values),
            Permits::new(permits, zones),
        ))
    }

    // The samples of three lists, as many of them as have a value: no room is asked for.
    pub fn new(points: &'a [i32], kinds: &'a [u32], values: &'a [f64]) -> Self
        requires { length values.now ≡ length kinds.now }
        ensures { samples_in result ≡ samples_of points.now kinds.now values.now }
    {
        Samples {
            points,
            kinds,
            values,
        }
    }

    // The number of samples.
    pub fn count(self) -> usize
        ensures { result ≡ length self.entry.kinds.now }
    {
        self.kinds.len()
    }

    // The reading of sample k.
    pub fn reading(self, k: usize) -> Reading
        requires { k < length self.kinds.now }
        ensures { result ≡ reading_at (samples_in self.entry) k }
    {
        reading_of(self.kinds[k], self.values[k])
    }

    // The x and the y of sample k.
    pub fn point(self, k: usize) -> (i32, i32)
        requires { (k < length self.kinds.now) × (length self.points.now ≡ 2 * length self.kinds.now) }
        ensures x { result.0 ≡ sample_x (samples_in self.entry) k }
        ensures y { result.1 ≡ sample_y (samples_in self.entry) k }
    {
        (self.points[2 * k], self.points[2 * k + 1])
    }
}

impl<'a> Permits<'a> {
    ghost use Rattle.ledger.specs.Readings.{permit_of};

    // The permits of so many zones, each a limit and a floor.
    pub fn new(words: &'a [f64], zones: u32) -> Self
        requires { 2 * zones ≤ length words.now }
        ensures words { result.words.now ≡ words.now }
        ensures zones { result.zones ≡ zones }
    {
        Permits { words, zones }
    }

    // The number of zones.
    pub fn zones(self) -> u32
        ensures { result ≡ self.entry.zones }
    {
        self.zones
    }

    // The permit of zone z.
    pub fn of(self, z: u32) -> Permit
        requires { z < self.zones }
        ensures { result ≡ permit_of self.entry.words.now z }
    {
        permit_of(self.words, z as usize)
    }
}

// What 43 asks.
pub fn has_room(
    samples: LentSamples,
    permits: &[f64],
    zones: u32,
    boundary: &[u32],
    off: &[u32],
    results: &[u32],
    means: &[f64],
) -> bool
    ensures { result ≡ holds (room_kept (lent_samples samples.entry) permits.now (sheet_of (pos 0) (pos 0) [] [] zones) (lent_of boundary.now off.now results.now means.now)) }
{
    let count = samples.kinds.len();
    let n = zones as usize;
    count <= MAX_SAMPLES
        && samples.points.len() == 2 * count
        && samples.values.len() == count
        && count <= boundary.len()
        && count <= off.len()
        && 2 * n <= permits.len()
        && 3 * n <= results.len()
        && n <= means.len()
}

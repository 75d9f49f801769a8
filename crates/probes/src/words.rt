ghost use Rattle.std.specs.Prelude.{◌≡◌};
ghost use Rattle.subdivision.specs.Formula.{holds};
ghost use Rattle.probes.specs.Asked.{looked_up};
ghost use Rattle.probes.specs.Judged.{starts_kept, places_kept};

use crate::Query;
use numbers::layout::{entry_word, place_word, start_word, zone_word};
use tables::word;

impl<'a> Query<'a> {
    // The place of zone z, as the index has it.
    pub fn place_of(&self, z: u32) -> u32
        ensures { result ≡ (looked_up self.now).place z }
    {
        word(self.index, place_word(self.zones, z))
    }

    // The zone at place p, as the index has it.
    pub fn zone_at(&self, p: u32) -> u32
        ensures { result ≡ (looked_up self.now).zone p }
    {
        word(self.index, zone_word(self.zones, p))
    }

    // The start of chain k, as the index has it.
    pub fn start_of(&self, k: u32) -> u32
        ensures { result ≡ (looked_up self.now).start k }
    {
        word(self.index, start_word(self.zones, k))
    }

    // Entry t of the chains, as the index has it.
    pub fn entry_at(&self, t: u32) -> u32
        ensures { result ≡ (looked_up self.now).entry t }
    {
        word(self.index, entry_word(self.zones, t))
    }
}

// Whether the starts of a chain and of the next one are at most m, and not the wrong way round.
pub fn starts_sound(from: u32, to: u32, m: u32) -> bool
    ensures { result ≡ holds (starts_kept from to m) }
{
    from <= m && to <= m && from <= to
}

// Whether the places of an edge's zones are below n, and place below < k <= place above.
pub fn places_sound(zones: u32, below: u32, k: u32, above: u32) -> bool
    ensures { result ≡ holds (places_kept zones below k above) }
{
    below < zones && above < zones && below < k && k <= above
}

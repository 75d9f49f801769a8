ghost use Rattle.std.specs.Prelude.{◌≡◌, ◌≤◌};
ghost use Rattle.subdivision.specs.Limits.{max_edges, max_zones};
ghost use Rattle.subdivision.specs.Layout.{index_need, place_word, zone_word, start_word, entry_word};

// The words that the index of n zones and m edges needs.
pub fn need(n: usize, m: usize) -> usize
    requires { (n ≤ max_zones) × (m ≤ max_edges) }
    ensures { result ≡ index_need n m }
{
    3 * n + m + 1
}

// The word that holds the place of zone z.
pub fn place_word(zones: u32, z: u32) -> usize
    ensures { result ≡ place_word zones z }
{
    z as usize
}

// The word that holds the zone at place p.
pub fn zone_word(zones: u32, p: u32) -> usize
    ensures { result ≡ zone_word zones p }
{
    (zones as usize) + (p as usize)
}

// The word that holds the start of chain k.
pub fn start_word(zones: u32, k: u32) -> usize
    ensures { result ≡ start_word zones k }
{
    2 * (zones as usize) + (k as usize)
}

// The word that holds entry t of the chains.
pub fn entry_word(zones: u32, t: u32) -> usize
    ensures { result ≡ entry_word zones t }
{
    3 * (zones as usize) + 1 + (t as usize)
}

// Rule 7: the line of zones, and the lowest zone that it does not place.
#![tactic(auto)]

pub mod grouped;
mod words;

ghost use Rattle.std.specs.Prelude.{◌≡◌, not, [], ℕ, suc, ◌<◌, ◌≤◌, ◌/◌, pos, length, get_or, set};
ghost use Rattle.subdivision.specs.Limits.{max_edges, max_zones};
ghost use Rattle.subdivision.specs.Formula.{holds};
ghost use Rattle.subdivision.specs.Lists.{put, tab};
ghost use Rattle.subdivision.specs.Lowest.{first};
ghost use Rattle.subdivision.specs.Order.{in_order};
ghost use Rattle.subdivision.specs.Sheet.{sheet_of};
ghost use Rattle.subdivision.specs.ZoneLine.{is_in, zone_line};
ghost use Rattle.theory.proofs.Groups.{group_start, group};
ghost use Rattle.line.specs.Waiting.{zones_of, below_key, wait_of, lowered};

use crate::grouped::Groups;
use crate::words::{count_under, first_left, next_ready, release};
use sorting::keyed::group_by_key;
use subdivision::{MAX_EDGES, MAX_ZONES};
use tables::edge_below;

// Writes the line of rule 7 to the front of `line`, as far as it goes, and gives the lowest zone that
// it does not place.
pub fn zone_line(edges: &[u32], zones: u32, line: &mut [u32]) -> Option<u32>
    requires { ((length edges.now / 4 ≤ max_edges) × (zones ≤ max_zones)) × (zones ≤ length line.old) }
    ensures written { line.new ≡ put (zone_line (sheet_of (pos 0) (pos 0) [] edges.now zones)) line.old }
    ensures left { result ≡ first (λ z. not (holds (is_in z (zone_line (sheet_of (pos 0) (pos 0) [] edges.now zones))))) zones }
{
    // A fixed buffer: no heap, memory of a known size.
    let mut order = [0u32; MAX_EDGES];
    let mut begin = [0u32; MAX_ZONES + 1];
    let mut waits = [0u32; MAX_ZONES];
    let n = zones as usize;
    let order = &mut order[..edges.len() / 4];
    let begin = &mut begin[..n + 1];
    let waits = &mut waits[..n];
    by_zone_below(edges, order, begin);
    count_under(edges, order, waits);
    let groups = Groups {
        edges,
        zones,
        order,
        begin,
    };
    place_zones(groups, waits, line);
    first_left(waits)
}

// Sorts the edges by their zone below, and tells where the edges above each zone begin.
pub fn by_zone_below(edges: &[u32], order: &mut [u32], begin: &mut [u32])
    requires { (length order.old ≤ max_edges) × (length begin.old ≤ 4294967296) }
    ensures sorted { order.new ≡ in_order (below_key edges.now) (length order.old) }
    ensures grouped { begin.new ≡ tab (group_start (below_key edges.now) order.new) (length begin.old) }
{
    group_by_key::<MAX_EDGES, _>(|e| below_key(edges, e), order, begin);
}

// The key of an edge: its zone below, in the upper half.
fn below_key(edges: &[u32], e: u32) -> u64
    ensures { result ≡ below_key edges.now e }
{
    (edge_below(edges, e) as u64) * 4294967296
}

// Places the zones in turn, each time the lowest that is ready, as far as some zone is.
fn place_zones(groups: Groups, waits: &mut [u32], line: &mut [u32])
    requires waits_len_bound { (length waits.old ≤ max_zones) × (length waits.old ≤ length line.old) }
    requires zones_are { length waits.old ≡ groups.zones }
    requires waits_value { waits.old ≡ tab (wait_of groups.edges.now groups.order.now []) (length waits.old) }
    ensures written { line.new ≡ put (zone_line (zones_of groups.entry.edges.now (length waits.old))) line.old }
    ensures words { waits.new ≡ tab (wait_of groups.entry.edges.now groups.entry.order.now (zone_line (zones_of groups.entry.edges.now (length waits.old)))) (length waits.old) }
{
    let mut cursor = 0;
    for placed in 0..waits.len() {
        let Some(z) = next_ready(waits, cursor) else {
            return;
        };
        line[placed] = z;
        cursor = place(groups, z, waits);
    }
}

// Places a zone: its word becomes 0, and the edges above it hold nothing back any more. No zone below
// the answer has become ready.
fn place(groups: Groups, zone: u32, waits: &mut [u32]) -> u32
    requires zone_in_bounds { (zone < length waits.old) × (length waits.old ≤ max_zones) }
    requires zones_are { length waits.old ≡ groups.zones }
    ensures words { waits.new ≡ lowered groups.entry.edges.now (group (below_key groups.entry.edges.now) groups.entry.order.now zone) (set waits.old zone 0) }
    ensures within { result ≤ suc zone }
    ensures before { (z : ℕ) → z < result → get_or waits.new z 0 ≡ 1 → get_or (set waits.old zone 0) z 0 ≡ 1 }
{
    waits[zone as usize] = 0;
    release(groups.edges, groups.run(zone), waits, zone + 1)
}

// The zones on circles: the lowest zone from which steps from below to above lead back to it.
#![tactic(auto)]

mod queue;
mod steps;

ghost use Rattle.std.specs.Prelude.{◌≡◌, ◌<◌, ◌≤◌, ◌/◌, length};
ghost use Rattle.subdivision.specs.Limits.{max_edges, max_zones};
ghost use Rattle.subdivision.specs.Formula.{holds};
ghost use Rattle.subdivision.specs.Lowest.{first};
ghost use Rattle.subdivision.specs.ZoneLine.{on_circle};
ghost use Rattle.line.specs.Waiting.{zones_of};
ghost use Rattle.circles.specs.Named.{NamedAbove};

use crate::queue::Queue;
use crate::steps::Steps;
use line::by_zone_below;
use line::grouped::Groups;
use subdivision::{MAX_EDGES, MAX_ZONES};

// The lowest zone that is itself on a circle.
pub fn lowest_on_circle(edges: &[u32], zones: u32) -> Option<u32>
    requires { ((length edges.now / 4 ≤ max_edges) × (zones ≤ max_zones)) × NamedAbove edges.now zones }
    ensures { result ≡ first (λ z. holds (on_circle (zones_of edges.now zones) z)) zones }
{
    // A fixed buffer: no heap, memory of a known size.
    let mut order = [0u32; MAX_EDGES];
    let mut begin = [0u32; MAX_ZONES + 1];
    let order = &mut order[..edges.len() / 4];
    let begin = &mut begin[..zones as usize + 1];
    by_zone_below(edges, order, begin);
    let groups = Groups {
        edges,
        zones,
        order,
        begin,
    };
    let steps = Steps { groups };
    for z in 0..zones {
        if on_circle(steps, z) {
            return Some(z);
        }
    }
    None
}

// Whether a zone is on a circle: the zones that a step leads to are queued once each, and their own steps
// taken in turn.
fn on_circle(steps: Steps, zone: u32) -> bool
    requires { zone < steps.groups.zones }
    ensures { result ≡ holds (on_circle (zones_of steps.entry.groups.edges.now steps.entry.groups.zones) zone) }
{
    // Fixed buffers: no heap, memory of a known size.
    let mut queue = Queue {
        marks: [0; MAX_ZONES],
        zones: [0; MAX_ZONES],
        count: 0,
    };
    queue.spread(steps, zone);
    let mut head: u32 = 0;
    // The queue grows while its head goes on.
    while head < queue.count {
        let next = queue.zones[head as usize];
        queue.spread(steps, next);
        head += 1;
    }
    queue.has(zone)
}

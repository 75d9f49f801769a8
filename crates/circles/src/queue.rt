ghost use Rattle.std.specs.Prelude.{◌≡◌, ◌<◌, length, take};
ghost use Rattle.subdivision.specs.Limits.{max_zones};
ghost use Rattle.subdivision.specs.Formula.{holds};
ghost use Rattle.subdivision.specs.ZoneLine.{is_in};
ghost use Rattle.theory.proofs.Reached.{with_zone, with_above, run_of};
ghost use Rattle.line.specs.Waiting.{zones_of};
ghost use Rattle.circles.specs.Looking.{Looking};

use crate::steps::Steps;
use subdivision::MAX_ZONES;
use tables::edge_above;

// The zones that steps lead to, each once.
#[derive(Drop)]
pub struct Queue {
    // For each zone 1 where it is queued, otherwise 0.
    pub marks: [u32; MAX_ZONES],
    // The zones that are queued, in their order, at the front.
    pub zones: [u32; MAX_ZONES],
    // How many are queued.
    pub count: u32,
    ghost looking: { Looking marks zones count },
}

impl Queue {
    // Queues the zones above a zone, each unless it is queued already.
    pub fn spread(&mut self, steps: Steps, zone: u32)
        requires { zone < steps.groups.zones }
        ensures { take self.new.count self.new.zones ≡ with_above steps.entry.groups.edges.now (run_of (zones_of steps.entry.groups.edges.now steps.entry.groups.zones) zone) (take self.old.count self.old.zones) (length (run_of (zones_of steps.entry.groups.edges.now steps.entry.groups.zones) zone)) }
    {
        let run = steps.groups.run(zone);
        for e in run {
            self.add(edge_above(steps.groups.edges, *e));
        }
    }

    // Queues a zone, unless it is queued already.
    fn add(&mut self, zone: u32)
        requires { zone < max_zones }
        ensures { take self.new.count self.new.zones ≡ with_zone (take self.old.count self.old.zones) zone }
    {
        if !self.has(zone) {
            self.marks[zone as usize] = 1;
            self.zones[self.count as usize] = zone;
            self.count += 1;
        }
    }

    // Whether a zone is queued.
    pub fn has(&self, zone: u32) -> bool
        requires { zone < max_zones }
        ensures { result ≡ holds (is_in zone (take self.now.count self.now.zones)) }
    {
        self.marks[zone as usize] == 1
    }
}

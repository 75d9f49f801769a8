ghost use Rattle.std.specs.Prelude.{◌≤◌};
ghost use Rattle.subdivision.specs.Limits.{max_zones};
ghost use Rattle.circles.specs.Named.{NamedAbove};

use line::grouped::Groups;

// The steps up between zones: over each edge from the zone below it to the zone above it, which exists.
#[derive(Clone, Copy)]
pub struct Steps<'a> {
    pub groups: Groups<'a>,
    ghost few: { groups.zones ≤ max_zones },
    ghost named: { NamedAbove groups.edges.now groups.zones },
}

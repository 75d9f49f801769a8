ghost use Rattle.std.specs.Prelude.{◌≡◌, ◌<◌};
ghost use Rattle.theory.proofs.Groups.{group};
ghost use Rattle.line.specs.Grouped.{Grouped};
ghost use Rattle.line.specs.Waiting.{below_key};

// The edges of a table sorted by their zone below, and where those above each zone begin.
#[derive(Clone, Copy)]
pub struct Groups<'a> {
    // The table.
    pub edges: &'a [u32],
    // The number of zones.
    pub zones: u32,
    // The numbers of the edges, by their zone below.
    pub order: &'a [u32],
    // For each zone the place in `order` where the edges above it begin, and then the place where the last ones end.
    pub begin: &'a [u32],
    ghost grouped: { Grouped edges.now order.now begin.now zones },
}

impl<'a> Groups<'a> {
    // The edges above a zone.
    pub fn run(self, zone: u32) -> &'a [u32]
        requires { zone < self.zones }
        ensures { result.now ≡ group (below_key self.entry.edges.now) self.entry.order.now zone }
    {
        let i = zone as usize;
        &self.order[self.begin[i] as usize..self.begin[i + 1] as usize]
    }
}

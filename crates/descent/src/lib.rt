// The published descent over the words of a lent index, each judged as it is read.
#![tactic(auto)]

ghost use Rattle.std.specs.Prelude.{◌≡◌, List, ℕ, ◌+◌, ◌-◌, ◌≤◌, ◌<◌, ◌/◌, length, take};
ghost use Rattle.subdivision.specs.Results.{examined_of};
ghost use Rattle.subdivision.specs.Limits.{max_zones, max_edges};
ghost use Rattle.subdivision.specs.Dyadic.{top_bit, low_bit};
ghost use Rattle.subdivision.specs.Descent.{examined, examine, turn};
ghost use Rattle.tables.specs.Known.{EndsKnown};
ghost use Rattle.probes.specs.Asked.{asked, looked_up};
ghost use Rattle.descent.specs.Steps.{state_of, passed, turn_of, Counted, answer_on, arrived_found, found_by, trail_of, descent_asked};

use geometry::lines::side;
use numbers::dyadic::{low_bit, top_bit};
use probes::Query;
use probes::words::{places_sound, starts_sound};
use subdivision::{Answer, Found, MAX_EXAMINED, Probed, Refused, Side};
use tables::{known_above, known_below};

// The refusal of a word of the index that is at fault.
const DAMAGED: Refused = Refused {
    number: 22,
    item: 0,
};

// The state of a descent: the places i and j, the chain k, and the numbers of edges examined and of probes.
#[derive(Clone, Copy)]
pub struct Descent {
    pub i: u32,
    pub j: u32,
    pub k: u32,
    pub examined: u32,
    pub probes: u32,
}

// What a step of a descent leads to; there is none where a word of the index is at fault.
#[derive(Clone, Copy)]
pub enum Step {
    // To a son; no edge is examined.
    Son(Descent),
    // Past an examined edge.
    Past(u32, Descent),
    // To an examined edge on which the point lies.
    On(u32, Descent),
}

impl Descent {
    // A descent begins at i = 0, j = n - 1, k = the top bit of n - 1, with nothing counted.
    fn new(query: &Query) -> Descent
        requires { 1 ≤ query.now.zones }
        ensures { result ≡ record { i = 0; j = query.now.zones - 1; k = top_bit (query.now.zones - 1); examined = 0; probes = 0 } }
    {
        let last = query.zones - 1;
        Descent {
            i: 0,
            j: last,
            k: top_bit(last),
            examined: 0,
            probes: 0,
        }
    }

    // To the left son.
    fn left(self) -> Descent
        ensures { result ≡ record self { k = self.k - low_bit self.k / 2 } }
    {
        Descent {
            k: self.k - low_bit(self.k) / 2,
            ..self
        }
    }

    // To the right son.
    fn right(self) -> Descent
        requires { self.k ≤ max_zones }
        ensures { result ≡ record self { k = self.k + low_bit self.k / 2 } }
    {
        Descent {
            k: self.k + low_bit(self.k) / 2,
            ..self
        }
    }

    // At an examined edge, with i and j as they become there.
    fn at_edge(self, i: u32, j: u32, probes: u32) -> Descent
        requires { self.examined < max_zones }
        ensures { result ≡ record self { i = i; j = j; examined = self.examined + 1; probes = probes } }
    {
        Descent {
            i,
            j,
            examined: self.examined + 1,
            probes,
            ..self
        }
    }

    // Past the edge found, with i and j as they become there; they may not pass each other.
    fn past_edge(self, found: Probed, i: u32, j: u32) -> Option<Step>
        requires { self.examined < max_zones }
        ensures { result ≡ passed self found.edge i j found.probes }
    {
        if j < i {
            return None;
        }
        Some(Step::Past(found.edge, self.at_edge(i, j, found.probes)))
    }

    // Examines the edge that the probes of chain k find, which is there with its vertices: its places are judged, then its side gives the
    // next i or j.
    fn examine_edge(self, query: &Query, found: Probed) -> Option<Step>
        requires { (self.examined < max_zones) × EndsKnown query.now.tables.vertices.now query.now.tables.edges.now found.edge }
        ensures turned { (trail : List ℕ) → turn_of (asked query.now) query.now.x query.now.y trail result ≡ examined (asked query.now) (looked_up query.now) query.now.x query.now.y (state_of self trail) found.edge found.probes }
        ensures counted { Counted self result }
    {
        let e = found.edge;
        let below = query.place_of(known_below(query.tables.edges, e));
        let above = query.place_of(known_above(query.tables.edges, e));
        if !places_sound(query.zones, below, self.k, above) {
            return None;
        }
        match side(query.tables.known_segment(e), query.x, query.y) {
            Side::On => Some(Step::On(e, self.at_edge(self.i, self.j, found.probes))),
            Side::Above => self.past_edge(found, above, self.j),
            Side::Below => self.past_edge(found, self.i, below),
        }
    }

    // Examines chain k: its starts are judged, then its probes find the edge that covers x.
    fn examine_chain(self, query: &Query) -> Option<Step>
        requires { ((self.k ≤ max_zones) × (length query.now.tables.edges.now / 4 ≤ max_edges)) × ((self.examined < max_zones) × (self.probes ≤ 2147483648)) }
        ensures turned { (trail : List ℕ) → turn_of (asked query.now) query.now.x query.now.y trail result ≡ examine (asked query.now) (looked_up query.now) query.now.x query.now.y (state_of self trail) }
        ensures counted { Counted self result }
    {
        let from = query.start_of(self.k);
        let to = query.start_of(self.k + 1);
        if !starts_sound(from, to, query.tables.edge_count() as u32) {
            return None;
        }
        let found = query.probe(from, to, self.probes)?;
        self.examine_edge(query, found)
    }

    // One step while i < j: to the left son if k > j, to the right son if k <= i, else chain k is examined.
    fn step(self, query: &Query) -> Option<Step>
        requires edges_len_bound { (length query.now.tables.edges.now / 4 ≤ max_edges) × ((self.examined < max_zones) × (self.probes ≤ 2147483648)) }
        requires i_lt_j { (self.i < self.j) × (self.j ≤ max_zones) }
        ensures turned { (trail : List ℕ) → turn_of (asked query.now) query.now.x query.now.y trail result ≡ turn (asked query.now) (looked_up query.now) query.now.x query.now.y (state_of self trail) }
        ensures counted { Counted self result }
    {
        if self.j < self.k {
            return Some(Step::Son(self.left()));
        }
        if self.k <= self.i {
            return Some(Step::Son(self.right()));
        }
        self.examine_chain(query)
    }

    // At i = j: the zone at that place, which is judged.
    fn arrive(self, query: &Query) -> Result<Found, Refused>
        ensures { result ≡ arrived_found query.now.zones query.now.index.now self }
    {
        let z = query.zone_at(self.i);
        if query.zones <= z {
            return Err(DAMAGED);
        }
        Ok(self.found(Answer::Zone(z)))
    }

    // What is found where the descent ends, with its counts.
    fn found(self, answer: Answer) -> Found
        ensures { result ≡ record { answer = answer; examined = self.examined; probes = self.probes } }
    {
        Found {
            answer,
            examined: self.examined,
            probes: self.probes,
        }
    }
}

// On an examined edge: the vertex if the point is one of its ends, else the edge.
fn answer_on(query: &Query, e: u32) -> Answer
    ensures { result ≡ answer_on query.now.tables.vertices.now query.now.tables.edges.now query.now.x query.now.y e }
{
    let g = query.tables.segment(e);
    let point = (query.x, query.y);
    if (g.xw, g.yw) == point {
        return Answer::Vertex(g.west);
    }
    if (g.xe, g.ye) == point {
        return Answer::Vertex(g.east);
    }
    Answer::Edge(e)
}

// Descends for the point asked, and leaves the edges examined, in order, at the front of `trail`.
pub fn descend(query: &Query, trail: &mut [u32; MAX_EXAMINED]) -> Result<Found, Refused>
    requires { ((1 ≤ query.now.zones) × (query.now.zones ≤ max_zones)) × (length query.now.tables.edges.now / 4 ≤ max_edges) }
    ensures found { result ≡ found_by (descent_asked query.now) }
    ensures listed { take (examined_of result) trail.new ≡ trail_of (descent_asked query.now) }
{
    let mut d = Descent::new(query);
    // The places i and j meet, so that no index counts.
    while d.i < d.j {
        match d.step(query).ok_or(DAMAGED)? {
            Step::Son(next) => d = next,
            Step::Past(e, next) => {
                trail[d.examined as usize] = e;
                d = next;
            }
            Step::On(e, last) => {
                trail[d.examined as usize] = e;
                return Ok(last.found(answer_on(query, e)));
            }
        }
    }
    d.arrive(query)
}

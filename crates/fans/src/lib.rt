// Rule 5, names agree: refusal 11.
#![tactic(auto)]

ghost use Rattle.std.specs.Prelude.{◌≡◌, not, ℕ, ◌-◌, ◌<◌, ◌≤◌, ◌/◌, min, length, get_or};
ghost use Rattle.subdivision.specs.Limits.{max_vertices, max_edges};
ghost use Rattle.subdivision.specs.Formula.{holds};
ghost use Rattle.subdivision.specs.Lowest.{found, first};
ghost use Rattle.subdivision.specs.Sheet.{vertex_count};
ghost use Rattle.subdivision.specs.Rules.{names_agree};
ghost use Rattle.subdivision.specs.Accepted.{Rule1, Rule2, Rule4};
ghost use Rattle.tables.specs.Lent.{lent};
ghost use Rattle.theory.proofs.Lowest.{least_of};
ghost use Rattle.fans.specs.Fans.{vertex_fault, fault_between, margin_fault, point_order, names_fault};

use order::{BothSides, Fans};
use subdivision::{MAX_EDGES, MAX_VERTICES};
use tables::{LentSheet, Tables, shifted, vertex_x};

mod order;
mod tied;

// The lowest vertex that breaks rule 5, on a sheet that keeps rules 1, 2 and 4; `None` where none does.
pub fn first_disagreement(sheet: LentSheet) -> Option<u32>
    requires vertices_len_bound { (length sheet.tables.vertices.now / 2 ≤ max_vertices) × (length sheet.tables.edges.now / 4 ≤ max_edges) }
    requires rule1 { Rule1 (lent sheet) }
    requires rule2 { Rule2 (lent sheet) }
    requires rule4 { Rule4 (lent sheet) }
    ensures { result ≡ first (λ v. not (holds (names_agree (lent sheet.entry) v))) (vertex_count (lent sheet.entry)) }
{
    // A fixed buffer: no heap, memory of a known size.
    let mut points = [0u32; MAX_VERTICES];
    let n = sheet.tables.vertex_count();
    let points = &mut points[..n];
    repeats::point_order(sheet.tables.vertices, points);
    names_fault(shifted(sheet.west), sheet.tables, points)
}

// The lowest vertex at which rule 5 is broken, from the vertices in order; `None` where it is not.
fn names_fault(west: u32, tables: Tables, points: &[u32]) -> Option<u32>
    requires vertices_len_bound { (length tables.vertices.now / 2 ≤ max_vertices) × (length tables.edges.now / 4 ≤ max_edges) }
    requires points_value { points.now ≡ point_order tables.vertices.now (length tables.vertices.now / 2) }
    ensures { result ≡ found (length tables.entry.vertices.now / 2) (names_fault west tables.entry.vertices.now tables.entry.edges.now) }
{
    // A fixed buffer: no heap, memory of a known size.
    let mut western = [0u32; MAX_EDGES];
    let mut eastern = [0u32; MAX_EDGES];
    let mut wstarts = [0u32; MAX_VERTICES + 1];
    let mut estarts = [0u32; MAX_VERTICES + 1];
    let m = tables.edge_count();
    let n = tables.vertex_count() + 1;
    let sides = BothSides {
        tables,
        western: Fans::sorted(tables.edges, false, &mut western[..m], &mut wstarts[..n]),
        eastern: Fans::sorted(tables.edges, true, &mut eastern[..m], &mut estarts[..n]),
    };
    let count = tables.vertex_count() as u32;
    let inside = first_untied(sides, count);
    let margin = first_on_margin(west, sides, points);
    lower(inside, margin)
}

// The lower of two numbers, either of which may be none.
fn lower(a: Option<u32>, b: Option<u32>) -> Option<u32>
    ensures { (count p q : ℕ) → a ≡ found count p → b ≡ found count q → result ≡ found count (min p q) }
{
    match (a, b) {
        (Some(x), Some(y)) => Some(x.min(y)),
        _ => a.or(b),
    }
}

// The lowest of the first `count` vertices at which rule 5 is broken, but for the margin; `None` where none is.
fn first_untied(sides: BothSides, count: u32) -> Option<u32>
    requires { count ≤ length sides.tables.vertices.now / 2 }
    ensures { result ≡ first (vertex_fault sides.entry.tables.vertices.now sides.entry.tables.edges.now) count }
{
    (0..count).find(|v| is_untied(sides, *v))
}

// Whether rule 5 is broken at vertex v, but for the margin.
fn is_untied(sides: BothSides, v: u32) -> bool
    requires { v < length sides.tables.vertices.now / 2 }
    ensures { result ≡ vertex_fault sides.entry.tables.vertices.now sides.entry.tables.edges.now v }
{
    !tied::vertex_tied(sides.tables, sides.western.fan(v), sides.eastern.fan(v))
}

// The lowest vertex at which rule 5 is broken on the margin, from the vertices in order; `None` where none is.
fn first_on_margin(west: u32, sides: BothSides, points: &[u32]) -> Option<u32>
    requires points_len { length points.now ≤ length sides.tables.vertices.now / 2 }
    requires by_index { (i : ℕ) → i < length points.now → get_or points.now i 0 < length points.now }
    ensures { result ≡ found (length points.now) (least_of (margin_fault west sides.entry.tables.vertices.now sides.entry.tables.edges.now points.now) (λ i. get_or points.now i 0) (length points.now - 1) (length points.now)) }
{
    let mut least = None;
    for i in 1..points.len() {
        let under = points[i - 1];
        let over = points[i];
        if is_fault_between(west, sides, under, over) {
            least = lower(Some(under), least);
        }
    }
    least
}

// Whether rule 5 is broken on the margin by two vertices, the one after the other in order.
fn is_fault_between(west: u32, sides: BothSides, under: u32, over: u32) -> bool
    requires { (under < length sides.tables.vertices.now / 2) × (over < length sides.tables.vertices.now / 2) }
    ensures { result ≡ fault_between west sides.entry.tables.vertices.now sides.entry.tables.edges.now under over }
{
    let vertices = sides.tables.vertices;
    vertex_x(vertices, under) == west
        && vertex_x(vertices, over) == west
        && !tied::margin_tied(
            sides.tables,
            sides.eastern.fan(under),
            sides.eastern.fan(over),
        )
}

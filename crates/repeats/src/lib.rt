// The vertices in order of their points, and refusal 5 along that order.
#![tactic(auto)]

ghost use Rattle.std.specs.Prelude.{◌≡◌, not, true, [], ◌<◌, ◌≤◌, ℕ, MatchOption, false, ◌+◌, pos, length, get_or};
ghost use Rattle.subdivision.specs.Limits.{max_vertices};
ghost use Rattle.subdivision.specs.Formula.{holds};
ghost use Rattle.subdivision.specs.Lowest.{first};
ghost use Rattle.subdivision.specs.Order.{SortedBelow, in_order};
ghost use Rattle.subdivision.specs.PointOrder.{ByPoint};
ghost use Rattle.subdivision.specs.Sheet.{sheet_of, vertex_x, vertex_y};
ghost use Rattle.subdivision.specs.Rules.{vertex_new};
ghost use Rattle.theory.proofs.Groups.{pair_key};
ghost use Rattle.theory.proofs.Repeats.{point_key, IsLeastRepeat};

use sorting::keyed::sort_by_key;
use subdivision::MAX_VERTICES;
use tables::{vertex_x, vertex_y};

// Puts the numbers 0, 1, .. of vertices into `order`, as many as it has places, by x, then y, then number.
pub fn point_order(vertices: &[i32], order: &mut [u32])
    requires { length order.old ≤ max_vertices }
    ensures sorted { order.new ≡ in_order (λ v. pair_key (vertex_x vertices.now v) (vertex_y vertices.now v)) (length order.old) }
    ensures once { SortedBelow (λ v. pair_key (vertex_x vertices.now v) (vertex_y vertices.now v)) (length order.old) order.new }
    ensures by_point { ByPoint vertices.now order.new }
    ensures fits { (v : ℕ) → v < length order.old → vertex_y vertices.now v < 4294967296 }
{
    sort_by_key::<MAX_VERTICES, _>(|v| point_key(vertices, v), order);
}

// The key of vertex v: its x, and then its y, which fits the key's lower half.
fn point_key(vertices: &[i32], v: u32) -> u64
    ensures key { result ≡ point_key vertices.now v }
    ensures fits { vertex_y vertices.now v < 4294967296 }
{
    let x = vertex_x(vertices, v) as u64;
    let y = vertex_y(vertices, v) as u64;
    x * 4294967296 + y
}

// Refusal 5: the lowest of the first `count` vertices that is the same point as an earlier one, looked for along the sorted order.
pub fn first_repeat(vertices: &[i32], count: u32) -> Option<u32>
    requires { count ≤ max_vertices }
    ensures { result ≡ first (λ v. not (holds (vertex_new (sheet_of (pos 0) (pos 0) vertices.now [] 0) v))) count }
{
    // A fixed buffer: no heap, memory of a known size.
    let mut order = [0u32; MAX_VERTICES];
    let order = &mut order[..count as usize];
    point_order(vertices, order);
    least_repeat(vertices, order)
}

// The least vertex of `order` that has the key of the one before it there, and so is the same point.
fn least_repeat(vertices: &[i32], order: &[u32]) -> Option<u32>
    ensures { IsLeastRepeat vertices.now order.now result }
{
    let mut least = None;
    for pair in order.windows(2) {
        let (u, v) = (pair[0], pair[1]);
        if point_key(vertices, u) == point_key(vertices, v) {
            least = match least {
                Some(low) => Some(v.min(low)),
                None => Some(v),
            };
        }
    }
    least
}

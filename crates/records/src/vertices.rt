ghost use Rattle.std.specs.Prelude.{◌≡◌, not};
ghost use Rattle.subdivision.specs.Formula.{both, is_at_most, holds};
ghost use Rattle.subdivision.specs.Lowest.{first};
ghost use Rattle.subdivision.specs.Rules.{in_range, vertex_inside};
ghost use Rattle.tables.specs.Lent.{lent};

use subdivision::{HIGHEST, LOWEST};
use tables::{LentSheet, shifted, vertex_x, vertex_y};

// Refusal 4: the lowest of the first `count` vertices that is out of range or outside the margins.
pub fn first_outside(sheet: LentSheet, count: u32) -> Option<u32>
    ensures { result ≡ first (λ v. not (holds (vertex_inside (lent sheet.entry) v))) count }
{
    let west = shifted(sheet.west);
    let east = shifted(sheet.east);
    let vertices = sheet.tables.vertices;
    (0..count).find(|v| !point_inside(west, east, vertex_x(vertices, *v), vertex_y(vertices, *v)))
}

// Whether a point is in range, and between the margins; all four numbers are shifted.
pub fn point_inside(west: u32, east: u32, x: u32, y: u32) -> bool
    ensures { result ≡ holds (both (both (in_range x) (in_range y)) (both (is_at_most west x) (is_at_most x east))) }
{
    in_range(x) && in_range(y) && (west..=east).contains(&x)
}

// Whether a shifted coordinate is in range.
pub fn in_range(c: u32) -> bool
    ensures { result ≡ holds (in_range c) }
{
    (LOWEST..=HIGHEST).contains(&c)
}

// Whether a point is on the sheet: between the margins and y in range; all four numbers are shifted.
pub fn on_sheet(west: u32, east: u32, x: u32, y: u32) -> bool
    ensures { result ≡ holds (both (both (is_at_most west x) (is_at_most x east)) (in_range y)) }
{
    (west..=east).contains(&x) && in_range(y)
}

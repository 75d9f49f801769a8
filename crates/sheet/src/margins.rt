ghost use Rattle.std.specs.Prelude.{◌≡◌, []};
ghost use Rattle.subdivision.specs.Formula.{holds};
ghost use Rattle.subdivision.specs.Sheet.{sheet_of};
ghost use Rattle.subdivision.specs.Refusals.{margins_kept};

use records::vertices::in_range;
use tables::shifted;

// Both margins are in range, and W < E.
pub fn margins_kept(west: i32, east: i32) -> bool
    ensures { result ≡ holds (margins_kept (sheet_of west east [] [] 0)) }
{
    let w = shifted(west);
    let e = shifted(east);
    in_range(w) && in_range(e) && w < e
}

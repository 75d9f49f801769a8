// The quick search: the published descent through separating chains, over the words of a lent index.
#![tactic(auto)]

ghost use Rattle.std.specs.Prelude.{◌≡◌, ◌↔◌, ℕ, length};
ghost use Rattle.subdivision.specs.Results.{refused, reply_of, examined_of, probes_of};
ghost use Rattle.subdivision.specs.Sheet.{shifted};
ghost use Rattle.subdivision.specs.Damage.{SearchRefuses};
ghost use Rattle.subdivision.specs.Engine.{CountsBounded, ThirdDemand};
ghost use Rattle.subdivision.specs.Calls.{searching};
ghost use Rattle.subdivision.specs.Signed.{SearchedAsSigned};
ghost use Rattle.tables.specs.Lent.{lent};

use descent::descend;
use numbers::dyadic::bit_length;
use numbers::layout::need;
use numbers::words::write;
use probes::Query;
use records::vertices::on_sheet;
use subdivision::{Found, MAX_EXAMINED, Refused};
use tables::{LentSheet, shifted};

// Searches for the point (x, y) by the words of `index`, and writes the edges examined, in order, to
// the front of `trail`; or gives one of the refusals 1, 2, 3, 20, 21 and 22, in that order, and
// writes nothing. It ends so whatever the index holds.
pub fn search_point(
    sheet: LentSheet,
    index: &[u32],
    x: i32,
    y: i32,
    trail: &mut [u32],
) -> Result<Found, Refused>
    ensures found { result ≡ (searching (lent sheet.entry) index.now x y trail.old).found }
    ensures listed { trail.new ≡ (searching (lent sheet.entry) index.now x y trail.old).trail }
    ensures refused { (number item : ℕ) → (reply_of result ≡ refused number item) ↔ SearchRefuses (lent sheet.entry) index.now (shifted x) (shifted y) (length trail.old) number item }
    ensures untouched { (number item : ℕ) → reply_of result ≡ refused number item → (trail.new ≡ trail.old) × ((examined_of result ≡ 0) × (probes_of result ≡ 0)) }
    ensures bounded { CountsBounded (lent sheet.entry) result }
    ensures third_demand { ThirdDemand (lent sheet.entry) index.now (shifted x) (shifted y) trail.old result trail.new }
    ensures signed { SearchedAsSigned (lent sheet.entry) index.now x y trail.old result trail.new }
{
    sheet::limits(sheet)?;
    if index.len() < need(sheet.zones as usize, sheet.tables.edge_count()) {
        return Err(Refused { number: 3, item: 0 });
    }
    let (west, east) = (shifted(sheet.west), shifted(sheet.east));
    let query = Query {
        west,
        east,
        tables: sheet.tables,
        zones: sheet.zones,
        index,
        x: shifted(x),
        y: shifted(y),
    };
    if !on_sheet(west, east, query.x, query.y) {
        return Err(Refused {
            number: 20,
            item: 0,
        });
    }
    if trail.len() < bit_length(sheet.zones - 1) as usize {
        return Err(Refused {
            number: 21,
            item: 0,
        });
    }
    // A fixed buffer: no heap, memory of a known size.
    let mut examined = [0u32; MAX_EXAMINED];
    let found = descend(&query, &mut examined)?;
    let count = found.examined as usize;
    write(&examined[..count], trail, 0);
    Ok(found)
}

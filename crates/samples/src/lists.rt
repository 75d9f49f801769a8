ghost use Rattle.std.specs.Prelude.{◌≡◌, ◌≤◌, length};
ghost use Rattle.subdivision.specs.Lists.{put};
ghost use Rattle.ledger.specs.Months.{those, max_samples};
ghost use Rattle.samples.specs.Spots.{lies_at};

use crate::Spot;

// Writes the numbers of the samples that lie at this spot, in order, to the front of `list`, and gives how many there are.
pub fn list_those(places: &[Spot], spot: Spot, list: &mut [u32]) -> u32
    requires { (length places.now ≤ max_samples) × (length places.now ≤ length list.old) }
    ensures value { result ≡ length (those (lies_at places.now spot) (length places.now)) }
    ensures list_after { list.new ≡ put (those (lies_at places.now spot) (length places.now)) list.old }
{
    let mut count: u32 = 0;
    for (k, place) in places.iter().enumerate() {
        if *place == spot {
            list[count as usize] = k as u32;
            count += 1;
        }
    }
    count
}

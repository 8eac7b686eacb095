ghost use Rattle.std.specs.Prelude.{◌≡◌, IfOk, sum_by};
ghost use Rattle.snap_round.specs.Counting.{links_along};

use grid_base::Seg;
use hot_pixels::HotSet;
use std::alloc::AllocError;

/// How many links the chains of these segments have together. A number past the last `u64` is out of memory: no
/// drawing has that many.
pub fn count_links(hot: &HotSet, spots: &[Seg]) -> Result<u64, AllocError>
    ensures exact { IfOk result (λ count. count ≡ sum_by (links_along hot.now) spots.now) }
{
    let mut count: u64 = 0;
    for s in spots {
        count = count.checked_add(hot.chain_links(s)).ok_or(AllocError)?;
    }
    Ok(count)
}

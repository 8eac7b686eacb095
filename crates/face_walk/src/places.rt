ghost use Rattle.std.specs.Prelude.{◌≡◌, ◌+◌, ◌*◌, ◌<◌, ◌≤◌};
ghost use Rattle.face_walk.specs.Places.{place_of};

use grid_base::SignedArc;

/// The number of the place outside of all arcs.
pub const OUTSIDE: u32 = 0;

/// The greatest number of arcs that have places.
pub const MAX_ARCS: u32 = 2_000_000_000;

/// The number of the place left of a signed arc.
pub fn place_of(a: SignedArc) -> u32
    requires few { a.arc < 2000000000 }
    ensures exact { result ≡ place_of a }
    ensures some { 0 < result }
    ensures within { result ≤ 2 * a.arc + 2 }
{
    let number = 2 * a.id().num() + 1;
    if a.is_reversed() { number + 1 } else { number }
}

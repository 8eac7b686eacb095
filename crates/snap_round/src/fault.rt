ghost use Rattle.std.specs.Prelude.{◌≡◌};

use std::alloc::AllocError;

/// Why a drawing is not snapped: its snapped paths would have `count` links, repeats counted, which is more than
/// 8,000,000; or memory ran out.
#[derive(Clone, Copy, PartialEq, Eq, Debug)]
pub enum SnapFault {
    TooDense { count: u64 },
    Memory,
}

impl From<AllocError> for SnapFault {
    ghost use Rattle.snap_round.specs.declared.fault.SnapFault.TheVariants.{Memory};

    ghost from_gives = { λ _ fault. fault ≡ Memory };

    fn from(_error: AllocError) -> SnapFault {
        SnapFault::Memory
    }
}

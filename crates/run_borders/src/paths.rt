ghost use Rattle.std.specs.Prelude.{◌≡◌, IfOk};
ghost use Rattle.run_borders.specs.Dissolving.{path_along};

use arc_table::SignedPath;
use grid_base::{ArcId, SignedArc};
use std::alloc::{AllocError, Global};

/// The path along one arc in its direction.
///
/// Errors: `AllocError` for want of memory.
pub(crate) fn path_along(alloc: Global, arc: ArcId) -> Result<SignedPath, AllocError>
    ensures exact { IfOk result (λ path. path ≡ path_along arc) }
{
    let mut path = SignedPath::new(alloc);
    path.push(SignedArc::forward(arc))?;
    Ok(path)
}

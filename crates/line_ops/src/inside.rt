ghost use Rattle.std.specs.Prelude.{◌≡◌};
ghost use Rattle.face_walk.specs.Places.{HasArc};
ghost use Rattle.line_ops.specs.Inside.{is_inside};

use face_sets::FaceSet;
use face_walk::Faces;
use grid_base::SignedArc;

/// Whether a set has at least one of the two sides of an arc. Takes no memory.
pub fn is_inside(f: &Faces, set: &FaceSet, a: SignedArc) -> bool
    requires arc { HasArc f.now a }
    ensures exact { result ≡ is_inside f.now set.now a }
{
    set.has(f.left_of(a)) || set.has(f.left_of(a.flip()))
}

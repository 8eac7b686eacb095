ghost use Rattle.std.specs.Prelude.{◌≡◌, Bool, ℕ};
ghost use Rattle.std.specs.Ordering.{is_lt};
ghost use Rattle.face_groups.specs.Keys.{is_owned, owned_before};

use face_sets::FaceOwners;
use grid_base::FaceId;
use std::cmp::Ordering;

/// Keys of faces, in some order. A face may have none.
pub trait FaceKeys {
    ghost is_keyed: { Self → ℕ → Bool };

    ghost comes_before: { Self → ℕ → ℕ → Bool };

    /// Whether a face has a key.
    fn has_key(&self, face: FaceId) -> bool
        ensures exact { result ≡ is_keyed self.now face };

    /// The order of the keys of two faces.
    fn order(&self, a: FaceId, b: FaceId) -> Ordering
        ensures less { is_lt result ≡ comes_before self.now a b };
}

// The lists of the sets that have the faces, in lexicographic order; none where no set has a face.
impl FaceKeys for FaceOwners {
    ghost is_keyed = { is_owned };

    ghost comes_before = { owned_before };

    fn has_key(&self, face: FaceId) -> bool {
        !self.at(face).is_empty()
    }

    fn order(&self, a: FaceId, b: FaceId) -> Ordering {
        self.at(a).cmp(self.at(b))
    }
}

ghost use Rattle.bucket_grid.specs.Rects.{SharingIsComputed};

/// Two rectangles share a grid point exactly where neither is past the other, in either direction.
pub fn sharing_is_computed()
    ensures holds { SharingIsComputed }
{}

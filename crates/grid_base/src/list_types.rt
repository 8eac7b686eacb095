ghost use Rattle.std.specs.Prelude.{◌≡◌, ◌++◌, [], All, IfOk, OnOk, length, map, reverse};
ghost use Rattle.grid_base.specs.Drawn.{without_repeats};

use crate::link::Link;
use crate::point::Pt;
use crate::rect::Rect;
use lists::ItemList;
use std::alloc::{AllocError, Global};

/// A list of points, of at most 4,294,967,295; counted from 0, as every list here.
pub type PtList = ItemList<Pt>;

/// The vertices of a path, in order.
pub type Path = PtList;

// The path, whose equal neighbours count once. It gives back the room that it has to spare.
pub(crate) fn without_repeats(path: PtList) -> PtList
    ensures exact { result ≡ without_repeats path }
{
    let mut points = path.into_vec();
    points.dedup();
    points.shrink_to_fit();
    match PtList::from_vec(points) {
        Ok(path) => path,
        Err(_) => unreachable!(),
    }
}

/// Appends points in reverse order.
///
/// Errors: `AllocError` for want of memory, or where the list is full; then some of them may stand there.
pub fn append_reversed(points: &mut PtList, way: &[Pt]) -> Result<(), AllocError>
    ensures exact { OnOk result (points.new ≡ points.old ++ reverse way.now) }
{
    for k in 0..way.len() {
        points.push(way[way.len() - 1 - k])?;
    }
    Ok(())
}

/// A list of paths.
pub type PathList = ItemList<PtList>;

/// The rings of one polygon.
pub type PolygonRings = ItemList<PtList>;

/// The polygons of one feature, each with its rings.
pub type RingsList = ItemList<PolygonRings>;

/// A list of rectangles.
pub type BoxList = ItemList<Rect>;

/// A list of links.
pub type LinkList = ItemList<Link>;

/// A list of numbers.
pub type IdList = ItemList<u32>;

/// A list of lists of numbers.
pub type GroupList = ItemList<IdList>;

/// As many empty lists as `count` says.
pub fn empty_lists<T>(alloc: Global, count: usize) -> Result<Vec<Vec<T>>, AllocError>
where
    T: Drop,
    ensures each { IfOk result (λ v. length v.items ≡ count) }
    ensures empty { IfOk result (λ v. All (λ list. list ≡ []) (map (λ list. list.items) v.items)) }
{
    let mut lists = Vec::with_capacity(alloc, count)?;
    for _list in 0..count {
        lists.push(Vec::new(alloc))?;
    }
    Ok(lists)
}

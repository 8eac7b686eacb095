use face_sets::FaceSet;
use grid_base::IdList;
use lists::ItemList;

/// A piece of a mosaic: a part of the faces that just these sets have.
#[derive(Drop)]
pub struct MosaicItem {
    /// The numbers of the sets, ascending.
    pub ids: IdList,
    pub set: FaceSet,
}

/// A part of a set.
#[derive(Drop)]
pub struct PartItem {
    /// The number of the set.
    pub feature: u32,
    pub set: FaceSet,
}

/// A list of pieces of a mosaic, of at most 4,294,967,295; counted from 0, as every list here.
pub type MosaicList = ItemList<MosaicItem>;

/// A list of parts of sets.
pub type PartList = ItemList<PartItem>;

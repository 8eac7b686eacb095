use face_sets::{FaceSet, SetList};
use lists::ItemList;

/// The sets of each layer; counted from 0, as every list here.
pub type LayerSets = ItemList<SetList>;

/// For each layer the number of a set, or none.
pub type ChoiceList = ItemList<Option<u32>>;

/// A part of the faces with one choice.
#[derive(Drop)]
pub struct UnionItem {
    pub choice: ChoiceList,
    pub set: FaceSet,
}

/// A list of parts with their choices, of at most 4,294,967,295.
pub type UnionList = ItemList<UnionItem>;

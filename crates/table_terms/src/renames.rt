use lists::ItemList;
use text_core::Text;

/// A new name, `label`, for the column that has been called `field`.
#[derive(Drop)]
pub struct Rename {
    pub label: Text,
    pub field: Text,
}

/// A list of renames; counted from 0.
pub type RenameList = ItemList<Rename>;

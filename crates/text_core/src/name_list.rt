use crate::text::Text;
use lists::ItemList;

/// A list of texts, of at most 4,294,967,295; counted from 0.
pub type NameList = ItemList<Text>;

/// The words of a command line, in order.
pub type Words = NameList;

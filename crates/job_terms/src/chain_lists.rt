ghost use Rattle.std.specs.Prelude.{◌<◌};

use crate::job::{Command, SourceWord};
use lists::ItemList;

/// The sources of a chain, in the order in which they are read.
pub type SourceList = ItemList<SourceWord>;

/// The commands of a chain, in order.
pub type CommandList = ItemList<Command>;

//! Why a command that changes layers is refused before it works: the tests of its target, its origin, the kinds of its
//! layers and their number.
//!
//! In: the layers of a state and those of the sources, the target of a command, and what it is to do. Out: nothing, or
//! the first refusal that applies. `checking` has both kinds of commands: those that change each layer by itself, and
//! those that change layers together.
#![tactic(auto)]

mod checking;

pub use checking::{check_each, check_together};

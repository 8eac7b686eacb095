use crate::refusal::RefuseWhy;
use run_plane::Layer;
use std::alloc::{AllocError, AllocFailed, Global};
use table_rows::TableFault;

/// A layer of the run.
#[derive(Drop)]
pub struct HeldLayer {
    pub layer: Layer,
    /// The last command that puts layers out put out this one: it is a target where none is named.
    pub is_default: bool,
}

/// The layers of a run between two commands, in order.
#[derive(Drop)]
pub struct State {
    pub layers: Vec<HeldLayer>,
}

/// Why a command stops a run.
#[derive(Clone, Copy, Debug, PartialEq, Eq)]
pub enum CommandStop {
    /// It is refused, and nothing has changed.
    Refused(RefuseWhy),
    /// There is no memory for it.
    Memory,
}

impl From<AllocError> for CommandStop {
    ghost use Rattle.std.specs.Prelude.{◌≡◌};
    ghost use Rattle.run_state.specs.declared.state.CommandStop.{CommandStop};

    ghost from_gives = { λ _ stop. stop ≡ CommandStop.Memory };

    fn from(_error: AllocError) -> CommandStop {
        CommandStop::Memory
    }
}

impl<T: Drop> From<AllocFailed<T>> for CommandStop {
    ghost use Rattle.std.specs.Prelude.{◌≡◌};
    ghost use Rattle.run_state.specs.declared.state.CommandStop.{CommandStop};

    ghost from_gives = { λ _ stop. stop ≡ CommandStop.Memory };

    fn from(_error: AllocFailed<T>) -> CommandStop {
        CommandStop::Memory
    }
}

impl From<RefuseWhy> for CommandStop {
    ghost use Rattle.std.specs.Prelude.{◌≡◌};
    ghost use Rattle.run_state.specs.declared.state.CommandStop.{CommandStop};

    ghost from_gives = { λ why stop. stop ≡ CommandStop.Refused why };

    fn from(why: RefuseWhy) -> CommandStop {
        CommandStop::Refused(why)
    }
}

impl From<TableFault> for CommandStop {
    ghost use Rattle.std.specs.Prelude.{◌≡◌};
    ghost use Rattle.run_state.specs.Stops.{stop_of};

    ghost from_gives = { λ fault stop. stop ≡ stop_of fault };

    fn from(fault: TableFault) -> CommandStop {
        match fault {
            TableFault::Bad { why } => CommandStop::Refused(RefuseWhy::Table(why)),
            TableFault::Memory => CommandStop::Memory,
        }
    }
}

impl State {
    ghost use Rattle.std.specs.Prelude.{◌≡◌, IfOk};
    ghost use Rattle.run_state.specs.Targets.{first_layers};

    /// The state with which the commands begin: all layers are default targets.
    ///
    /// Errors: `AllocError` for want of memory.
    pub fn new(alloc: Global, layers: Vec<Layer>) -> Result<State, AllocError>
        ensures held { IfOk result (λ state. state.layers.items ≡ first_layers layers.items) }
    {
        let mut held = Vec::new(alloc);
        for layer in layers {
            held.push(HeldLayer {
                layer,
                is_default: true,
            })?;
        }
        Ok(State { layers: held })
    }
}

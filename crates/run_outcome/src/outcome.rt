ghost use Rattle.std.specs.Prelude.{◌≡◌};
ghost use Rattle.run_outcome.specs.Status.{status_number};

use cmd_words::{WordFault, WordWhy};
use run_sources::{InputWhy, SourceFault};
use run_state::{CommandStop, RefuseWhy};
use snap_round::SnapFault;

/// How a run ended. Words, sources and commands are counted from 1.
#[derive(Clone, Copy, Debug, PartialEq, Eq)]
pub enum Outcome {
    /// All that the words ask for is done.
    Done,
    /// This word is the first that is refused.
    BadWords { word: u32, why: WordWhy },
    /// The host failed to read the source.
    ReadFault { source: u32 },
    /// There is no file of the source's name.
    Missing { source: u32 },
    /// The sources up to this one have more than 67,108,864 bytes together.
    TooLong { source: u32 },
    /// The source is refused.
    BadInput { source: u32, why: InputWhy },
    /// The snapped paths have `count` links, repeats counted, more than 8,000,000.
    TooDense { count: u64 },
    /// This command is the first that is refused.
    Refused { command: u32, why: RefuseWhy },
    /// The host failed to write what the command writes.
    WriteFault { command: u32 },
    /// No memory was left.
    Memory,
}

impl Outcome {
    ghost use Rattle.std.specs.Prelude.{◌≡◌};
    ghost use Rattle.run_outcome.specs.Ends.{of_command, of_drawing, of_sources, of_words};

    /// The outcome of a run whose words are refused.
    pub fn of_words(fault: WordFault) -> Outcome
        ensures exact { result ≡ of_words fault }
    {
        match fault {
            WordFault::Bad { word, why } => Outcome::BadWords { word, why },
            WordFault::Memory => Outcome::Memory,
        }
    }

    /// The outcome of a run whose sources are not all read and accepted.
    pub fn of_sources(fault: SourceFault) -> Outcome
        ensures exact { result ≡ of_sources fault }
    {
        match fault {
            SourceFault::ReadFault { source } => Outcome::ReadFault { source },
            SourceFault::Missing { source } => Outcome::Missing { source },
            SourceFault::TooLong { source } => Outcome::TooLong { source },
            SourceFault::BadInput { source, why } => Outcome::BadInput { source, why },
            SourceFault::Memory => Outcome::Memory,
        }
    }

    /// The outcome of a run whose drawing is not snapped.
    pub fn of_drawing(fault: SnapFault) -> Outcome
        ensures exact { result ≡ of_drawing fault }
    {
        match fault {
            SnapFault::TooDense { count } => Outcome::TooDense { count },
            SnapFault::Memory => Outcome::Memory,
        }
    }

    /// The outcome of a run that the command with this number, from 1, stops.
    pub fn of_command(command: u32, stop: CommandStop) -> Outcome
        ensures exact { result ≡ of_command command stop }
    {
        match stop {
            CommandStop::Refused(why) => Outcome::Refused { command, why },
            CommandStop::Memory => Outcome::Memory,
        }
    }
}

/// The exit status that stands for an outcome, from 0 to 6.
pub fn status_of(outcome: &Outcome) -> u8
    ensures exact { result ≡ status_number outcome.now }
{
    match outcome {
        Outcome::Done => 0,
        Outcome::BadWords { .. } => 1,
        Outcome::BadInput { .. } | Outcome::TooLong { .. } | Outcome::TooDense { .. } => 2,
        Outcome::Refused { .. } => 3,
        Outcome::ReadFault { .. } | Outcome::Missing { .. } => 4,
        Outcome::WriteFault { .. } => 5,
        Outcome::Memory => 6,
    }
}

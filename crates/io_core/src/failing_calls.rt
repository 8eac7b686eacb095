ghost use Rattle.std.specs.Prelude.{◌≡◌, IfOk};
ghost use Rattle.std.specs.List.{list_any};
ghost use Rattle.std.specs.Prelude.{◌==◌};
ghost use Rattle.io_core.specs.Memory.{next, next_fails};

use std::alloc::{AllocError, Global};
use std::marker::Model;

/// Which calls of one kind fail, by their numbers from 1.
#[derive(Drop)]
pub struct FailingCalls {
    failing: Vec<u32>,
    made: u64,
}

impl Model for FailingCalls {
    ghost use Rattle.io_core.specs.Memory.{Calls};

    ghost Value = { Calls };

    ghost view = { λ c. record { made = c.made; failing = c.failing.items } };
}

impl FailingCalls {
    /// No call made so far. The numbers of `failing`, from 1 and in any order, are those of the calls that fail.
    ///
    /// Errors: `AllocError` for want of memory for these numbers.
    pub fn new(alloc: Global, failing: &[u32]) -> Result<FailingCalls, AllocError>
        ensures started { IfOk result (λ calls. calls ≡ record { made = 0; failing = failing.now }) }
    {
        Ok(FailingCalls {
            failing: Vec::from_slice(alloc, failing)?,
            made: 0,
        })
    }

    /// Counts one more call, and says whether it fails.
    pub fn next_fails(&mut self) -> bool
        ensures counted { self.new ≡ next self.old }
        ensures listed { result ≡ next_fails self.old }
    {
        self.made = self.made.saturating_add(1);
        is_listed(&self.failing, self.made)
    }
}

fn is_listed(numbers: &[u32], call: u64) -> bool
    ensures listed { result ≡ list_any (λ number. number == call) numbers.now }
{
    numbers.iter().any(|number| u64::from(*number) == call)
}

ghost use Rattle.std.specs.Prelude.{◌≡◌, ◌+◌, ◌<◌, ◌^◌, IfOk};

use std::alloc::AllocError;
use std::marker::Model;

/// The number of an arc, from 0.
#[derive(Clone, Copy, PartialEq, Eq, PartialOrd, Ord, Debug)]
pub struct ArcId {
    number: u32,
}

impl Model for ArcId {
    ghost use Rattle.std.specs.Prelude.{ℕ, ◌<◌, ◌^◌};

    ghost Value = { ℕ };

    ghost view = { λ a. a.number };

    ghost inverse = { λ n. record { number = n } };
}

impl ArcId {
    /// Arc number `n`, counted from 0; whether a table has that arc isn't asked.
    pub fn new(n: u32) -> ArcId
        ensures made { result ≡ n }
    {
        ArcId { number: n }
    }

    /// The number, counted from 0.
    pub fn num(&self) -> u32
        ensures exact { result ≡ self.now }
    {
        self.number
    }
}

/// The number of a face, from 0.
#[derive(Clone, Copy, PartialEq, Eq, PartialOrd, Ord, Debug)]
pub struct FaceId {
    number: u32,
}

impl Model for FaceId {
    ghost use Rattle.std.specs.Prelude.{ℕ};

    ghost Value = { ℕ };

    ghost view = { λ f. f.number };

    ghost inverse = { λ n. record { number = n } };
}

impl FaceId {
    /// Face number `n`, counted from 0; whether there is that face isn't asked.
    pub fn new(n: u32) -> FaceId
        ensures made { result ≡ n }
    {
        FaceId { number: n }
    }

    /// The number, counted from 0.
    pub fn num(&self) -> u32
        ensures exact { result ≡ self.now }
    {
        self.number
    }
}

/// The number of a feature among those of its kind, from 0.
#[derive(Clone, Copy, PartialEq, Eq, PartialOrd, Ord, Debug)]
pub struct FeatId {
    number: u32,
}

impl Model for FeatId {
    ghost use Rattle.std.specs.Prelude.{ℕ};

    ghost Value = { ℕ };

    ghost view = { λ f. f.number };

    ghost inverse = { λ n. record { number = n } };
}

impl FeatId {
    /// Feature number `n` among those of a kind, counted from 0; whether there is that feature isn't asked.
    pub fn new(n: u32) -> FeatId
        ensures made { result ≡ n }
    {
        FeatId { number: n }
    }

    /// The number among the features of the kind, counted from 0.
    pub fn num(&self) -> u32
        ensures exact { result ≡ self.now }
    {
        self.number
    }
}

/// The number of the next item after `count` of them.
///
/// Errors: `AllocError` where a list with that item would be too full for a `u32` to count it.
pub fn next_number(count: usize) -> Result<u32, AllocError>
    ensures exact { IfOk result (λ n. n ≡ count) }
    ensures small { IfOk result (λ n. count + 1 < 2 ^ 32) }
{
    if count >= u32::MAX as usize {
        return Err(AllocError);
    }
    Ok(count as u32)
}

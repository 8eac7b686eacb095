ghost use Rattle.std.specs.Prelude.{◌≡◌};

use std::marker::Model;

/// The number of a span in its pool, from 0.
#[derive(Clone, Copy, PartialEq, Eq, PartialOrd, Ord, Debug)]
pub struct SpanId {
    number: u32,
}

impl Model for SpanId {
    ghost use Rattle.std.specs.Prelude.{ℕ};

    ghost Value = { ℕ };

    ghost view = { λ s. s.number };

    ghost inverse = { λ n. record { number = n } };
}

impl SpanId {
    /// Span number `n`, counted from 0; whether a pool has that span isn't asked.
    pub fn new(n: u32) -> SpanId
        ensures made { result ≡ n }
    {
        SpanId { number: n }
    }

    /// The number, counted from 0.
    pub fn num(&self) -> u32
        ensures exact { result ≡ self.now }
    {
        self.number
    }
}

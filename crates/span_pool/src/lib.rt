//! A pool of points: one region of points of its own, cut into spans.
//!
//! Room is taken ahead, by `reserve`. After that a span is pushed, read and dropped without taking memory, so a table
//! that reserves first is built whole or not at all. Contracts see a pool as the list of its spans and the two
//! numbers of spares.
//!
//! 1. `ids` has the numbers of spans, from 0.
//! 2. `pool` has `SpanPool`: `push_span` takes points and answers the number of their span, `get` takes the number
//!    and answers the points. `span_in` is a span of any list that is cut in this way.
#![tactic(auto)]

mod ids;
mod pool;

pub use ids::SpanId;
pub use pool::{SpanPool, span_in};

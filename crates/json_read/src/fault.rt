use thiserror::Error;

/// Why bytes were not read: they are no JSON text, and `at` is the length of their longest prefix that
/// begins one; or memory ran out.
///
/// Depth is a bracket or a brace that opens one array or object too many. Utf8 is a character of a string
/// that breaks off or is no UTF-8. Syntax is every other fault.
#[derive(Clone, Copy, Debug, PartialEq, Eq, Drop, Error)]
pub enum JsonFault {
    #[error("no JSON at byte {at}")]
    Syntax { at: u64 },
    #[error("too many nested arrays and objects at byte {at}")]
    Depth { at: u64 },
    #[error("no UTF-8 at byte {at}")]
    Utf8 { at: u64 },
    #[error("out of memory")]
    Memory,
}

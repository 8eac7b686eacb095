ghost use Rattle.std.specs.Prelude.{◌≡◌};
ghost use Rattle.expr_lang.specs.Tokens.{three_bytes as three_bytes_at, two_bytes as two_bytes_at, one_byte as one_byte_at, other_byte as other_byte_at};

use crate::token::{Mark, Operator, Symbol};

/// The operator `===` or `!==`, where the bytes begin with it; else `None`.
pub fn three_bytes(rest: &[u8]) -> Option<Symbol>
    ensures exact { result ≡ three_bytes_at rest.now }
{
    if rest.starts_with(b"===") {
        Some(Symbol::Operator(Operator::Same))
    } else if rest.starts_with(b"!==") {
        Some(Symbol::Operator(Operator::NotSame))
    } else {
        None
    }
}

/// The symbol that the first two bytes are, `None` where they are none. It is `Other` for what the language leaves out
/// of JavaScript: `**`, `=>`, `++`, `--`, `<<`, `>>` and `?.`.
pub fn two_bytes(rest: &[u8]) -> Option<Symbol>
    ensures exact { result ≡ two_bytes_at rest.now }
{
    if rest.starts_with(b"==") {
        Some(Symbol::Operator(Operator::Equal))
    } else if rest.starts_with(b"!=") {
        Some(Symbol::Operator(Operator::NotEqual))
    } else if rest.starts_with(b"<=") {
        Some(Symbol::Operator(Operator::AtMost))
    } else if rest.starts_with(b">=") {
        Some(Symbol::Operator(Operator::AtLeast))
    } else if rest.starts_with(b"&&") {
        Some(Symbol::Operator(Operator::Both))
    } else if rest.starts_with(b"||") {
        Some(Symbol::Operator(Operator::Either))
    } else if rest.starts_with(b"**") {
        Some(Symbol::Other)
    } else if rest.starts_with(b"=>") {
        Some(Symbol::Other)
    } else if rest.starts_with(b"++") {
        Some(Symbol::Other)
    } else if rest.starts_with(b"--") {
        Some(Symbol::Other)
    } else if rest.starts_with(b"<<") {
        Some(Symbol::Other)
    } else if rest.starts_with(b">>") {
        Some(Symbol::Other)
    } else if rest.starts_with(b"?.") {
        Some(Symbol::Other)
    } else {
        None
    }
}

/// The symbol that this byte is by itself, `None` where it is none. It is `Other` for what the language leaves out of
/// JavaScript, as `/`, `%` or a comma.
pub fn one_byte(b: u8) -> Option<Symbol>
    ensures exact { result ≡ one_byte_at b }
{
    match b {
        b'?' => Some(Symbol::Mark(Mark::Question)),
        b':' => Some(Symbol::Mark(Mark::Colon)),
        b'<' => Some(Symbol::Operator(Operator::Less)),
        b'>' => Some(Symbol::Operator(Operator::Greater)),
        b'+' => Some(Symbol::Operator(Operator::Plus)),
        b'-' => Some(Symbol::Operator(Operator::Minus)),
        b'*' => Some(Symbol::Operator(Operator::Times)),
        b'!' => Some(Symbol::Mark(Mark::Not)),
        b'(' => Some(Symbol::Mark(Mark::Open)),
        b')' => Some(Symbol::Mark(Mark::Close)),
        b'[' => Some(Symbol::Mark(Mark::OpenBracket)),
        b']' => Some(Symbol::Mark(Mark::CloseBracket)),
        b'.' => Some(Symbol::Mark(Mark::Dot)),
        b'=' => Some(Symbol::Mark(Mark::Becomes)),
        b';' => Some(Symbol::Mark(Mark::Semicolon)),
        _ => other_byte(b),
    }
}

fn other_byte(b: u8) -> Option<Symbol>
    ensures exact { result ≡ other_byte_at b }
{
    match b {
        b'/' | b'%' | b'&' | b'|' | b'^' | b'~' | b'{' | b'}' | b',' => Some(Symbol::Other),
        _ => None,
    }
}

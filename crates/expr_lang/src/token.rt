use numerals::Decimal;
use text_core::Text;

/// An operator between two operands.
#[derive(Clone, Copy, Debug, PartialEq, Eq, Drop)]
pub enum Operator {
    /// `||`
    Either,
    /// `&&`
    Both,
    /// `===`
    Same,
    /// `!==`
    NotSame,
    /// `==`
    Equal,
    /// `!=`
    NotEqual,
    /// `<=`
    AtMost,
    /// `>=`
    AtLeast,
    /// `<`
    Less,
    /// `>`
    Greater,
    /// `+`
    Plus,
    /// `-`
    Minus,
    /// `*`
    Times,
}

/// An operator before one operand.
#[derive(Clone, Copy, Debug, PartialEq, Eq, Drop)]
pub enum Sign {
    /// `!`
    Not,
    /// `-`
    Negative,
}

/// Punctuation, and `!`: a symbol that is no operator between two operands.
#[derive(Clone, Copy, Debug, PartialEq, Eq, Drop)]
pub enum Mark {
    /// `!`
    Not,
    Open,
    Close,
    Question,
    Colon,
    Dot,
    OpenBracket,
    CloseBracket,
    /// `=`
    Becomes,
    Semicolon,
}

/// A token that is an operator, a mark, or such a sign of JavaScript that the language leaves out.
#[derive(Clone, Copy, Debug, PartialEq, Eq, Drop)]
pub enum Symbol {
    Operator(Operator),
    Mark(Mark),
    Other,
}

/// A piece of the text of an expression, or of assignments, as the scanner cuts it.
#[derive(Drop)]
pub enum Token {
    /// A numeral that is a decimal.
    Number(Decimal),
    Text(Text),
    True,
    False,
    Null,
    This,
    Name(Text),
    Operator(Operator),
    Mark(Mark),
    /// A token that the language leaves out: an operator or a word of JavaScript, a numeral that is no
    /// decimal, a text with another escape.
    Other,
    /// A byte that begins no token, or a text that does not end. Nothing is read after it.
    Stray,
}

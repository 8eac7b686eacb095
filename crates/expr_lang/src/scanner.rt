ghost use Rattle.std.specs.Prelude.{◌≡◌, ◌∷◌, ◌++◌, ◌<◌, ◌-◌, [], List, ℕ, true, false, length, take, drop, ◌^◌, MatchOption, IfOk, Some, encode_utf8};
ghost use Rattle.std.specs.Str.{bytes_eq, IsCharBoundary};
ghost use Rattle.std.specs.String.{string_bytes};
ghost use Rattle.numerals.specs.Bytes.{is_white, is_digit, is_digit as is_a_digit, drop_while};
ghost use Rattle.numerals.specs.Decimal.{decimal_of_text};
ghost use Rattle.numerals.specs.Numeral.{skip_sign};
ghost use Rattle.expr_lang.specs.Tokens.{begins_with_digit, skip_whole, skip_fraction, skip_exponent, after_number, number_token, escape_of as escape_byte, is_quote, is_quote as is_a_quote, text_at, content_token, is_name_start as starts_name, is_name_byte, is_other_word as is_left_out, word_token as token_of_word, symbol_token as token_of_symbol, symbol_at, token_at, tokens_of};
ghost use Rattle.expr_lang.specs.Reading.{known_content, EndsLine};
ghost use Rattle.expr_lang.specs.declared.token.Token.TheVariants as token;

use crate::symbols::{one_byte, three_bytes, two_bytes};
use crate::token::{Symbol, Token};
use numerals::Decimal;
use std::alloc::{AllocError, Global};
use text_core::Text;

/// What is left of a text.
#[derive(Drop)]
struct Scanner<'a> {
    alloc: Global,
    rest: &'a str,
}

impl<'a> Scanner<'a> {
    fn peek(&self) -> Option<u8>
        ensures exact { MatchOption result (self.now.rest.now ≡ [])
            (λ b. (bs : List ℕ) × (self.now.rest.now ≡ b ∷ bs)) }
    {
        self.rest.as_bytes().first().copied()
    }

    // Goes past the next character.
    fn next(&mut self) -> Option<char>
        ensures exact { MatchOption result ((self.old.rest.now ≡ []) × (self.new.rest.now ≡ []))
            (λ c. self.old.rest.now ≡ encode_utf8 c ++ self.new.rest.now) }
    {
        let mut chars = self.rest.chars();
        let next = chars.next();
        self.rest = chars.as_str();
        next
    }

    // Goes past the next byte, which is an ASCII character.
    fn advance(&mut self)
        requires { (b : ℕ) × (bs : List ℕ) × (self.old.rest.now ≡ b ∷ bs) × (b < 128) }
        ensures next { (b : ℕ) × (self.old.rest.now ≡ b ∷ self.new.rest.now) }
    {
        let _ = self.next();
    }

    fn pass(&mut self, n: usize)
        requires { IsCharBoundary self.old.rest.now n }
        ensures exact { self.new.rest.now ≡ drop n self.old.rest.now }
    {
        self.rest = &self.rest[n..];
    }

    fn skip_white(&mut self)
        ensures exact { self.new.rest.now ≡ drop_while is_white self.old.rest.now }
    {
        while let Some(b' ' | b'\t' | b'\n' | b'\r') = self.peek() {
            self.advance();
        }
    }

    fn digits(&mut self)
        ensures exact { self.new.rest.now ≡ drop_while is_digit self.old.rest.now }
    {
        while let Some(b'0'..=b'9') = self.peek() {
            self.advance();
        }
    }

    fn name_bytes(&mut self)
        ensures exact { self.new.rest.now ≡ drop_while is_name_byte self.old.rest.now }
    {
        while let Some(b'a'..=b'z' | b'A'..=b'Z' | b'0'..=b'9' | b'_' | b'$') = self.peek() {
            self.advance();
        }
    }

    fn whole(&mut self)
        ensures exact { self.new.rest.now ≡ skip_whole self.old.rest.now }
    {
        if let Some(b'0') = self.peek() {
            self.advance();
        } else {
            self.digits();
        }
    }

    fn is_digit_next(&self) -> bool
        ensures exact { result ≡ begins_with_digit self.now.rest.now }
    {
        match self.peek() {
            Some(b'0'..=b'9') => true,
            _ => false,
        }
    }

    fn fraction(&mut self)
        ensures exact { self.new.rest.now ≡ skip_fraction self.old.rest.now }
    {
        let start = self.rest;
        if let Some(b'.') = self.peek() {
            self.advance();
            if self.is_digit_next() {
                self.digits();
            } else {
                self.rest = start;
            }
        }
    }

    fn sign(&mut self)
        ensures exact { self.new.rest.now ≡ skip_sign self.old.rest.now }
    {
        if let Some(b'+' | b'-') = self.peek() {
            self.advance();
        }
    }

    fn exponent(&mut self)
        ensures exact { self.new.rest.now ≡ skip_exponent self.old.rest.now }
    {
        let start = self.rest;
        if let Some(b'e' | b'E') = self.peek() {
            self.advance();
            self.sign();
            if self.is_digit_next() {
                self.digits();
            } else {
                self.rest = start;
            }
        }
    }

    // Passes a numeral, and answers its bytes.
    fn numeral(&mut self) -> &'a str
        ensures rest { self.new.rest.now ≡ after_number self.old.rest.now }
        ensures text { result.now ≡ take (length self.old.rest.now - length self.new.rest.now) self.old.rest.now }
    {
        let start = self.rest;
        self.whole();
        self.fraction();
        self.exponent();
        front_of(start, self.rest)
    }

    // A word, whose first byte is one of a name.
    fn word(&mut self) -> &'a str
        ensures rest { self.new.rest.now ≡ drop_while is_name_byte self.old.rest.now }
        ensures text { result.now ≡ take (length self.old.rest.now - length self.new.rest.now) self.old.rest.now }
    {
        let start = self.rest;
        self.name_bytes();
        front_of(start, self.rest)
    }

    // A text, after its quote.
    fn quoted(&mut self, quote: u8) -> Result<Token, AllocError>
        requires { is_quote quote ≡ true }
        ensures exact { IfOk result (λ t. (t, self.new.rest.now) ≡ text_at quote (Some []) self.old.rest.now) }
    {
        let mut content = String::new(self.alloc);
        let mut other = false;
        loop {
            let Some(c) = self.next_in_line() else {
                return Ok(self.stray());
            };
            if c == char::from(quote) {
                return Ok(text_token(content, other));
            }
            if c != '\\' {
                content.push(c)?;
                continue;
            }
            let Some(c) = self.next_in_line() else {
                return Ok(self.stray());
            };
            match escape_of(c) {
                Some(c) => content.push(c)?,
                None => other = true,
            }
        }
    }

    // Goes past the next character, unless it is a line feed.
    fn next_in_line(&mut self) -> Option<char>
        ensures exact { MatchOption result (EndsLine self.old.rest.now)
            (λ c. (self.old.rest.now ≡ encode_utf8 c ++ self.new.rest.now) × ¬ (c ≡ 10)) }
    {
        match self.next() {
            Some('\n') => None,
            next => next,
        }
    }

    // What fits nowhere: nothing is read after it.
    fn stray(&mut self) -> Token
        ensures rest { self.new.rest.now ≡ [] }
        ensures token { result ≡ token.Stray }
    {
        self.rest = "";
        Token::Stray
    }

    // An operator or a mark, whose first byte is `first`.
    fn symbol(&mut self, first: u8) -> Token
        requires { (bs : List ℕ) × (self.old.rest.now ≡ first ∷ bs) }
        ensures exact { (bs : List ℕ) → self.old.rest.now ≡ first ∷ bs → (result, self.new.rest.now) ≡ symbol_at first bs }
    {
        if let Some(symbol) = three_bytes(self.rest.as_bytes()) {
            self.pass(3);
            return symbol_token(symbol);
        }
        if let Some(symbol) = two_bytes(self.rest.as_bytes()) {
            self.pass(2);
            return symbol_token(symbol);
        }
        if let Some(symbol) = one_byte(first) {
            self.pass(1);
            return symbol_token(symbol);
        }
        self.stray()
    }

    // The token whose first byte is `first`.
    fn token(&mut self, first: u8) -> Result<Token, AllocError>
        requires { (bs : List ℕ) × (self.old.rest.now ≡ first ∷ bs) }
        ensures exact { IfOk result (λ t. (bs : List ℕ) → self.old.rest.now ≡ first ∷ bs → (t, self.new.rest.now) ≡ token_at first bs) }
    {
        if is_digit(first) {
            return Ok(number(self.numeral()));
        }
        if is_quote(first) {
            self.advance();
            return self.quoted(first);
        }
        if is_name_start(first) {
            let word = self.word();
            return word_token(self.alloc, word);
        }
        Ok(self.symbol(first))
    }
}

// The front of a text, without its end `rest`.
fn front_of<'a>(text: &'a str, rest: &str) -> &'a str
    requires { (front : List ℕ) × (text.now ≡ front ++ rest.now) }
    ensures exact { result.now ≡ take (length text.now - length rest.now) text.now }
{
    &text[..text.len() - rest.len()]
}

fn is_digit(b: u8) -> bool
    ensures exact { result ≡ is_a_digit b }
{
    b >= b'0' && b < b'9' + 1
}

fn is_quote(b: u8) -> bool
    ensures exact { result ≡ is_a_quote b }
{
    b == b'"' || b == b'\''
}

/// Whether a name may begin with this byte.
pub fn is_name_start(b: u8) -> bool
    ensures exact { result ≡ starts_name b }
{
    (b >= b'A' && b <= b'Z') || (b >= b'a' && b <= b'z') || b == b'_' || b == b'$'
}

fn number(numeral: &str) -> Token
    ensures exact { result ≡ number_token (decimal_of_text numeral.now) }
{
    match Decimal::parse(numeral) {
        Some(decimal) => Token::Number(decimal),
        None => Token::Other,
    }
}

/// The tokens of a text, each with its place, counted from 0 in bytes.
///
/// Errors: `AllocError` for want of memory.
pub fn tokens(alloc: Global, text: &str) -> Result<Vec<(u32, Token)>, AllocError>
    requires { length text.now < 2 ^ 32 }
    ensures exact { IfOk result (λ ts. ts.items ≡ tokens_of text.now) }
{
    let mut scanner = Scanner { alloc, rest: text };
    let mut tokens = Vec::new(alloc);
    scanner.skip_white();
    while let Some(first) = scanner.peek() {
        let at = (text.len() - scanner.rest.len()) as u32;
        let token = scanner.token(first)?;
        tokens.push((at, token))?;
        scanner.skip_white();
    }
    Ok(tokens)
}

fn text_token(content: String, other: bool) -> Token
    ensures exact { result ≡ content_token (known_content other (string_bytes content)) }
{
    if other {
        Token::Other
    } else {
        Token::Text(Text::from_string(content))
    }
}

// What a character after a backslash stands for.
fn escape_of(c: char) -> Option<char>
    ensures exact { result ≡ escape_byte c }
{
    match c {
        '\\' | '\'' | '"' => Some(c),
        'n' => Some('\n'),
        't' => Some('\t'),
        _ => None,
    }
}

fn is(word: &str, letters: &str) -> bool
    ensures exact { result ≡ bytes_eq word.now letters.now }
{
    word == letters
}

/// Whether a word is one of JavaScript that expressions leave out.
pub fn is_other_word(word: &str) -> bool
    ensures exact { result ≡ is_left_out word.now }
{
    is(word, "typeof")
        || is(word, "new")
        || is(word, "function")
        || is(word, "in")
        || is(word, "instanceof")
        || is(word, "var")
        || is(word, "let")
        || is(word, "const")
        || is(word, "delete")
        || is(word, "void")
        || is(word, "return")
}

fn word_token(alloc: Global, word: &str) -> Result<Token, AllocError>
    ensures exact { IfOk result (λ t. t ≡ token_of_word word.now) }
{
    if is(word, "true") {
        return Ok(Token::True);
    }
    if is(word, "false") {
        return Ok(Token::False);
    }
    if is(word, "null") {
        return Ok(Token::Null);
    }
    if is(word, "this") {
        return Ok(Token::This);
    }
    if is_other_word(word) {
        return Ok(Token::Other);
    }
    Ok(Token::Name(Text::of(alloc, word)?))
}

fn symbol_token(symbol: Symbol) -> Token
    ensures exact { result ≡ token_of_symbol symbol }
{
    match symbol {
        Symbol::Operator(operator) => Token::Operator(operator),
        Symbol::Mark(mark) => Token::Mark(mark),
        Symbol::Other => Token::Other,
    }
}

ghost use Rattle.std.specs.Prelude.{◌≡◌, ◌++◌, ◌<◌, ◌≤◌, length, drop, ◌+◌, take_while, false, OnOk, OnErr};
ghost use Rattle.std.specs.List.{flat_map};
ghost use Rattle.json_values.specs.Json.{array, object};
ghost use Rattle.json_values.specs.Seen.{json_value};
ghost use Rattle.json_values.specs.Proper.{AppendsText};
ghost use Rattle.json_values.specs.Text.{bool_text, escaped, hex_digit, is_plain as is_a_plain_byte, json_text, number_text, string_text};
ghost use Rattle.numerals.specs.Bytes.{Begins};

use crate::json::{Json, JsonFields, JsonList};
use numerals::Decimal;
use std::alloc::AllocError;
use text_core::{Bytes, Text};

impl Json {
    /// Appends the text of the value, without white space. A number whose value is a `Decimal` is printed as
    /// one; another keeps its spelling.
    ///
    /// Errors: where memory runs out, `out` begins with what it held.
    /// Source: RFC 8259; which characters are escaped, and how, is ours.
    pub fn print_into(&self, out: &mut Bytes) -> Result<(), AllocError>
        ensures ok { OnOk result (out.new ≡ out.old ++ json_text (json_value self.now)) }
        ensures denotes { OnOk result (AppendsText out.old out.new (json_value self.now)) }
        ensures err { OnErr result (Begins out.old out.new) }
    {
        self.print_value(out)
    }

    #[cycle(printing)]
    fn print_value(&self, out: &mut Bytes) -> Result<(), AllocError>
        ensures ok { OnOk result (out.new ≡ out.old ++ json_text (json_value self.now)) }
        ensures err { OnErr result (Begins out.old out.new) }
    {
        match self {
            Json::Null => out.extend(b"null"),
            Json::Bool(b) => print_bool(*b, out),
            Json::Num(numeral) => print_number(numeral, out),
            Json::Text(text) => print_string(text, out),
            Json::List(items) => items.print_into(out),
            Json::Object(fields) => fields.print_into(out),
        }
    }
}

impl JsonList {
    #[cycle(printing)]
    fn print_into(&self, out: &mut Bytes) -> Result<(), AllocError>
        ensures ok { OnOk result (out.new ≡ out.old ++ json_text (array self.now)) }
        ensures err { OnErr result (Begins out.old out.new) }
    {
        out.push(b'[')?;
        for i in 0..self.items.len() {
            if i > 0 {
                out.push(b',')?;
            }
            self.items[i].print_value(out)?;
        }
        out.push(b']')
    }
}

impl JsonFields {
    #[cycle(printing)]
    fn print_into(&self, out: &mut Bytes) -> Result<(), AllocError>
        ensures ok { OnOk result (out.new ≡ out.old ++ json_text (object self.now)) }
        ensures err { OnErr result (Begins out.old out.new) }
    {
        out.push(b'{')?;
        for i in 0..self.fields.len() {
            if i > 0 {
                out.push(b',')?;
            }
            let field = &self.fields[i];
            print_string(&field.0, out)?;
            out.push(b':')?;
            field.1.print_value(out)?;
        }
        out.push(b'}')
    }
}

pub(crate) fn print_bool(b: bool, out: &mut Bytes) -> Result<(), AllocError>
    ensures ok { OnOk result (out.new ≡ out.old ++ bool_text b) }
    ensures err { OnErr result (Begins out.old out.new) }
{
    if b {
        out.extend(b"true")
    } else {
        out.extend(b"false")
    }
}

fn print_number(numeral: &Text, out: &mut Bytes) -> Result<(), AllocError>
    ensures ok { OnOk result (out.new ≡ out.old ++ number_text numeral.now) }
    ensures err { OnErr result (Begins out.old out.new) }
{
    let text = numeral.as_str();
    match Decimal::parse(text) {
        Some(decimal) => decimal.print_into(out),
        None => out.extend(text.as_bytes()),
    }
}

/// Appends a text as a JSON string.
///
/// Errors: where memory runs out, `out` begins with what it held.
pub fn print_string(text: &Text, out: &mut Bytes) -> Result<(), AllocError>
    ensures ok { OnOk result (out.new ≡ out.old ++ string_text text.now) }
    ensures err { OnErr result (Begins out.old out.new) }
{
    out.push(b'"')?;
    print_escaped(text.as_str().as_bytes(), out)?;
    out.push(b'"')
}

// What stands between the quotes: runs of bytes as they are, and escapes.
fn print_escaped(text: &[u8], out: &mut Bytes) -> Result<(), AllocError>
    ensures ok { OnOk result (out.new ≡ out.old ++ flat_map escaped text.now) }
    ensures err { OnErr result (Begins out.old out.new) }
{
    let mut rest = text;
    loop {
        let n = plain_count(rest);
        out.extend(&rest[..n])?;
        if n == rest.len() {
            return Ok(());
        }
        print_escape(rest[n], out)?;
        rest = past(rest, n);
    }
}

fn past(text: &[u8], n: usize) -> &[u8]
    requires within { n < length text.now }
    ensures exact { result.now ≡ drop (n + 1) text.now }
{
    &text[n + 1..]
}

// How many bytes at the front stand as they are.
fn plain_count(text: &[u8]) -> usize
    ensures count { result ≡ length (take_while is_a_plain_byte text.now) }
    ensures within { result ≤ length text.now }
{
    let mut n = 0;
    while n < text.len() && is_plain(text[n]) {
        n += 1;
    }
    n
}

fn is_plain(byte: u8) -> bool
    ensures exact { result ≡ is_a_plain_byte byte }
{
    byte >= 0x20 && byte != b'"' && byte != b'\\'
}

fn print_escape(byte: u8, out: &mut Bytes) -> Result<(), AllocError>
    requires escaped { is_a_plain_byte byte ≡ false }
    ensures ok { OnOk result (out.new ≡ out.old ++ escaped byte) }
    ensures err { OnErr result (Begins out.old out.new) }
{
    match byte {
        b'"' | b'\\' => out.extend(&[b'\\', byte]),
        0x08 => out.extend(b"\\b"),
        b'\t' => out.extend(b"\\t"),
        b'\n' => out.extend(b"\\n"),
        0x0C => out.extend(b"\\f"),
        b'\r' => out.extend(b"\\r"),
        _ => out.extend(&[b'\\', b'u', b'0', b'0', hex(byte / 16), hex(byte % 16)]),
    }
}

fn hex(digit: u8) -> u8
    requires small { digit < 16 }
    ensures exact { result ≡ hex_digit digit }
{
    if digit < 10 {
        b'0' + digit
    } else {
        b'a' - 10 + digit
    }
}

ghost use Rattle.std.specs.Prelude.{IfNone, IfSome, IsUtf8, List, MatchOption, ◌≤◌, ◌<◌, ◌↔◌, ℕ};
ghost use Rattle.csv_io.specs.CsvUtf8.{CanEnd, Completes, Continues, EndsUtf8At, Follow, Stops};
ghost use Rattle.csv_io.specs.declared.utf8.Expected.TheVariants as expected;

/// What may come next in a UTF-8 text.
#[derive(Clone, Copy)]
enum Expected {
    /// The first byte of a character.
    First,
    /// A byte from `low` up to, not with, `high`, and then `more` bytes from 128 to 191.
    Next { low: u8, high: u8, more: u8 },
}

impl Expected {
    /// What may come after a byte, `None` where the byte may not come.
    fn after(self, byte: u8) -> Option<Expected>
        ensures next { IfSome result (λ later. Continues self byte later) }
        ensures none { IfNone result (Stops self byte) }
    {
        match self {
            Expected::First => Expected::after_first(byte),
            Expected::Next { low, high, more } if low <= byte && byte < high => {
                Some(Expected::following(more))
            }
            Expected::Next { .. } => None,
        }
    }

    /// `more` bytes from 128 to 191, and then the first byte of a character.
    fn following(more: u8) -> Expected
        ensures same { (bytes : List ℕ) → Follow more bytes ↔ Completes result bytes }
        ensures ends { CanEnd result }
    {
        if more == 0 {
            Expected::First
        } else {
            Expected::Next {
                low: 128,
                high: 192,
                more: more - 1,
            }
        }
    }

    /// Source: RFC 3629, section 4.
    fn after_first(byte: u8) -> Option<Expected>
        ensures next { IfSome result (λ later. Continues expected.First byte later) }
        ensures none { IfNone result (Stops expected.First byte) }
    {
        match byte {
            0..=127 => Some(Expected::First),
            194..=223 => Some(Expected::second_of_two(byte)),
            224..=239 => Some(Expected::second_of_three(byte)),
            240..=244 => Some(Expected::second_of_four(byte)),
            _ => None,
        }
    }

    fn second_of_two(first: u8) -> Expected
        requires least { 194 ≤ first }
        requires greatest { first < 224 }
        ensures next { Continues expected.First first result }
    {
        Expected::Next {
            low: 128,
            high: 192,
            more: 0,
        }
    }

    /// A surrogate, or a number that fewer bytes show, has no text.
    fn second_of_three(first: u8) -> Expected
        requires least { 224 ≤ first }
        requires greatest { first < 240 }
        ensures next { Continues expected.First first result }
    {
        Expected::Next {
            low: if first == 224 { 160 } else { 128 },
            high: if first == 237 { 160 } else { 192 },
            more: 1,
        }
    }

    /// A number past 1,114,111, or one that fewer bytes show, has no text.
    fn second_of_four(first: u8) -> Expected
        requires least { 240 ≤ first }
        requires greatest { first < 245 }
        ensures next { Continues expected.First first result }
    {
        Expected::Next {
            low: if first == 240 { 144 } else { 128 },
            high: if first == 244 { 144 } else { 192 },
            more: 2,
        }
    }
}

/// The length of the longest prefix that begins some UTF-8 text, where the bytes are none.
pub(crate) fn utf8_fault(bytes: &[u8]) -> Option<u64>
    ensures exact { MatchOption result (IsUtf8 bytes.now) (λ at. EndsUtf8At bytes.now at) }
{
    let mut expected = Expected::First;
    for i in 0..bytes.len() {
        match expected.after(bytes[i]) {
            Some(next) => expected = next,
            None => return Some(i as u64),
        }
    }
    match expected {
        Expected::First => None,
        Expected::Next { .. } => Some(bytes.len() as u64),
    }
}

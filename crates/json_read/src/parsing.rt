ghost use Rattle.std.specs.Prelude.{◌≡◌};
ghost use Rattle.json_read.specs.Faults.{fault_of};
ghost use Rattle.std.specs.Prelude.{IfOk, IfErr};
ghost use Rattle.json_values.specs.Grammar.{JsonText};
ghost use Rattle.json_values.specs.Seen.{json_value};
ghost use Rattle.json_read.specs.Faults.{FaultFits};
ghost use Rattle.json_values.specs.Proper.{IsProper};

use crate::fault::JsonFault;
use crate::reader::{Fault, Reader, Stop};
use json_values::Json;
use std::alloc::Global;

/// Reading a JSON value: `Json::parse`. It is a trait since values stand in a crate below the reader.
pub trait ReadJson {
    /// The value that the bytes denote, where they are a text of the grammar.
    ///
    /// Shape: arrays and objects nest at most 64 deep; a repeated name keeps its first place and its last
    /// value; a number keeps its spelling.
    /// Errors: the place and the kind of the first fault, or `Memory`.
    /// Source: RFC 8259; the byte order mark, the depth and U+FFFD for half a surrogate pair are ours.
    fn parse(alloc: Global, bytes: &[u8]) -> Result<Json, JsonFault>
        ensures ok { IfOk result (λ json. JsonText 64 bytes.now (json_value json)) }
        ensures proper { IfOk result (λ json. IsProper 64 (json_value json)) }
        ensures fault { IfErr result (FaultFits 64 bytes.now) };
}

impl ReadJson for Json {
    fn parse(alloc: Global, bytes: &[u8]) -> Result<Json, JsonFault> {
        let mut reader = Reader::new(alloc, bytes);
        match reader.text() {
            Ok(json) => Ok(json),
            Err(Stop::Memory) => Err(JsonFault::Memory),
            Err(Stop::Fault(fault)) => Err(fault_at(fault, bytes.len() - reader.left())),
        }
    }
}

// The fault of a text, of which this many bytes begin some text.
pub(crate) fn fault_at(fault: Fault, at: usize) -> JsonFault
    ensures exact { result ≡ fault_of fault at }
{
    let at = at as u64;
    match fault {
        Fault::Syntax => JsonFault::Syntax { at },
        Fault::Depth => JsonFault::Depth { at },
        Fault::Utf8 => JsonFault::Utf8 { at },
    }
}

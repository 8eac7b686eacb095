//! JSON texts (RFC 8259), read.
//!
//! In: bytes. `Json::parse` gives the value that they denote, or the kind and the place of the first fault: the length
//! of the longest prefix that begins some text. `parse_taking` reads the same of an object, and hands the items of one
//! array in it to an `ItemTaker`, each as soon as it is read, so that a long list is never kept whole. It may read an
//! item itself, by the parts of a `Reader`: `ValueTaker` and `MemberTaker` do so inside arrays and objects, and no
//! `Json` is made of what they take.
//!
//! Values and their texts stand in `json_values`, numerals in `numerals`; both are handed on.
//!
//! `laws` has facts over the definitions alone: what a text of the grammar denotes is one value, and proper; and the
//! machine that places the faults accepts each text of the grammar.
#![tactic(auto)]

mod fault;
pub mod laws;
mod parsing;
mod reader;

pub use fault::JsonFault;
pub use json_values::{Fields, FieldsList, Json, JsonFields, JsonList, Row, RowList, Table, Value};
pub use numerals::{Decimal, is_numeral, numeral_to_grid, whole_units};
pub use parsing::ReadJson;
pub use reader::{Fault, ItemTaker, MemberTaker, Reader, TakenObject, ValueTaker, parse_taking};

//! JSON values, and the values of tables.
//!
//! A `Json` is a tree of values, in which a numeral keeps its spelling. `print_into` appends the compact text of one.
//! Its grammar stands here too (`specs/Grammar.antt`); what reads texts is `json_read`, and puts the fields of an
//! object into `GrowingFields` as they come.
//!
//! `Value` is what a cell of a table holds. `Fields` are the named values of one feature, and `Table::from_fields`
//! makes a table of many: a column for each name, in the order of first appearance.
//!
//! `laws` has facts over the definitions alone: the text that is printed of a proper value is in the grammar and
//! denotes that value, and a number is printed with the value that it has.
#![tactic(auto)]

mod comparing;
mod copying;
mod fields;
mod growing_fields;
mod json;
pub mod laws;
mod printing;
mod table;
mod value;

pub use fields::{Fields, FieldsList};
pub use growing_fields::GrowingFields;
pub use json::{Json, JsonFields, JsonList};
pub use printing::print_string;
pub use table::{Row, RowList, Table};
pub use value::Value;

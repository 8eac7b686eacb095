ghost use Rattle.std.specs.Prelude.{◌≡◌, ◌<◌, ◌++◌, [], IfErr, IfOk, None, All, codes, decimal, length, option_copied};
ghost use Rattle.std.specs.List.{AllZip, enumerate_from};
ghost use Rattle.json_values.specs.Value.{plain_text};
ghost use Rattle.table_rows.specs.Refusals.{Answers};
ghost use Rattle.table_rows.specs.Splitting.{split_rows};
ghost use Rattle.run_state.specs.Stops.{StopsFor, table_refusal};
ghost use Rattle.run_tables.specs.Pieces.{ArePieces, IsPiece, IsSplit, piece_name};

use crate::table_commands::with_table;
use io_core::{Bytes, Text};
use json_values::{Table, Value};
use run_plane::Layer;
use run_state::{CommandStop, take_features};
use std::alloc::{AllocError, Global};
use table_rows::{SplitItem, SplitList, TableFault, copy_table, split_rows};

/// A layer for each value of the field, named by its plain text; without a field a layer for each feature, named by
/// the layer's name and its number from 1. A layer without features is put out as it is.
///
/// Errors: `Refused` with `NoField` where the table lacks the field, and `Memory`.
#[tactic(auto, using(run_state::proofs::Stops::table_stops))]
pub fn split(alloc: Global, layer: &Layer, field: Option<&Text>) -> Result<Vec<Layer>, CommandStop>
    ensures split { IfOk result (λ made. IsSplit (option_copied field.entry) layer.now made.items) }
    ensures accepted { IfOk result (λ made. table_refusal (split_rows layer.now.table (option_copied field.entry)) ≡ None) }
    ensures stops { IfErr result (StopsFor (table_refusal (split_rows layer.now.table (option_copied field.entry)))) }
{
    let items = items_of(alloc, &layer.table, field)?;
    Ok(layers_of(alloc, layer, items.as_slice())?)
}

fn items_of(alloc: Global, table: &Table, field: Option<&Text>) -> Result<SplitList, TableFault>
    ensures exact { Answers result (split_rows table.now (option_copied field.entry)) }
    ensures below { IfOk result (λ items. All (λ item. All (λ n. n < length table.now.rows) item.rows) items) }
{
    match field {
        Some(field) => split_rows(alloc, table, Some(field.as_str())),
        None => split_rows(alloc, table, None),
    }
}

fn layers_of(alloc: Global, layer: &Layer, items: &[SplitItem]) -> Result<Vec<Layer>, AllocError>
    requires below { All (λ item. All (λ n. n < length layer.now.table.rows) item.rows) items.now }
    ensures pieces { IfOk result (λ made. ArePieces layer.now items.now made.items) }
{
    if items.is_empty() {
        return whole(alloc, layer);
    }
    pieces_of(alloc, layer, items)
}

fn whole(alloc: Global, layer: &Layer) -> Result<Vec<Layer>, AllocError>
    ensures whole { IfOk result (λ made. ArePieces layer.now [] made.items) }
{
    let table = copy_table(alloc, &layer.table)?;
    let mut made = Vec::new(alloc);
    made.push(with_table(alloc, layer, table)?)?;
    Ok(made)
}

fn pieces_of(alloc: Global, layer: &Layer, items: &[SplitItem]) -> Result<Vec<Layer>, AllocError>
    requires below { All (λ item. All (λ n. n < length layer.now.table.rows) item.rows) items.now }
    ensures pieces { IfOk result (λ made. AllZip (IsPiece layer.now) (enumerate_from 1 items.now) made.items) }
{
    let mut pieces = Vec::new(alloc);
    for (i, item) in items.iter().enumerate() {
        pieces.push(piece(alloc, layer, i as u64 + 1, item)?)?;
    }
    Ok(pieces)
}

// The features of an item, as the piece with this number, from 1.
fn piece(alloc: Global, layer: &Layer, number: u64, item: &SplitItem) -> Result<Layer, AllocError>
    requires below { All (λ n. n < length layer.now.table.rows) item.now.rows }
    ensures piece { IfOk result (IsPiece layer.now (number, item.now)) }
{
    let mut piece = take_features(alloc, layer, &item.rows)?;
    piece.name = piece_name(alloc, layer.name.as_str(), number, item.value.as_ref())?;
    Ok(piece)
}

fn piece_name(
    alloc: Global,
    name: &str,
    number: u64,
    value: Option<&Value>,
) -> Result<Text, AllocError>
    ensures exact { IfOk result (λ text. text ≡ piece_name name.now number (option_copied value.entry)) }
{
    match value {
        Some(value) => plain_text(alloc, value),
        None => numbered(alloc, name, number),
    }
}

fn plain_text(alloc: Global, value: &Value) -> Result<Text, AllocError>
    ensures exact { IfOk result (λ text. text ≡ plain_text value.now) }
{
    let mut bytes = Bytes::new(alloc);
    value.print_plain(&mut bytes)?;
    // Plain text is UTF-8, since numbers, texts and trees are printed as such.
    match str::from_utf8(bytes.as_slice()) {
        Ok(text) => Text::of(alloc, text),
        Err(_) => Err(AllocError),
    }
}

fn numbered(alloc: Global, name: &str, number: u64) -> Result<Text, AllocError>
    ensures exact { IfOk result (λ text. text ≡ name.now ++ (codes "-" ++ decimal number)) }
{
    Ok(Text::from_string(format!(in alloc; "{name}-{number}")?))
}

ghost use Rattle.std.specs.Prelude.{◌≡◌, ◌++◌, ◌∷◌, [], IfOk, OnOk, codes, decimal, length, map};
ghost use Rattle.std.specs.List.{flat_map};
ghost use Rattle.std.specs.String.{string_bytes};
ghost use Rattle.json_values.specs.Table.{AreRows};
ghost use Rattle.run_plane.specs.OnPlane.{IsLayerOn};
ghost use Rattle.run_shapes.specs.Cleaning.{IsCleaned, IsMosaicOf, after_comma, ids_row, ids_text, piece_shape};

use grid_base::{Kind, OverlapRule};
use io_core::{NameList, Text};
use itoa::Buffer;
use json_values::{Row, RowList, Table, Value};
use region_ops::{MosaicItem, clean_sets, mosaic_sets};
use run_plane::{Layer, Plane, Shape, copy_text};
use run_state::{sets_of, with_sets};
use std::alloc::{AllocError, Global};

/// The layer with each face that several features hold left with the one that the rule ranks first. A gap between
/// features, of at most the area `gap`, doubled and in squares of the grid, then goes to the neighbour that the rule
/// ranks first. Features without geometry afterwards are left out, unless `allow_empty`.
///
/// Errors: `AllocError` for want of memory.
pub fn cleaned(
    alloc: Global,
    plane: &Plane,
    layer: &Layer,
    rule: OverlapRule,
    allow_empty: bool,
    gap: u128,
) -> Result<Layer, AllocError>
    requires on { IsLayerOn plane.now layer.now }
    ensures made { IfOk result (IsCleaned rule allow_empty gap plane.now layer.now) }
    ensures on { IfOk result (IsLayerOn plane.now) }
{
    let old = sets_of(alloc, &layer.shapes)?;
    let sets = clean_sets(alloc, &plane.arcs, &plane.faces, &old, rule, gap)?;
    with_sets(alloc, layer, sets, allow_empty)
}

/// A feature for each part of the faces that just the same features hold, in the order of the lists of their numbers,
/// counted from 0, which stand in the one column `ids`, joined by commas.
///
/// Errors: `AllocError` for want of memory.
pub fn mosaic(alloc: Global, plane: &Plane, layer: &Layer) -> Result<Layer, AllocError>
    requires on { IsLayerOn plane.now layer.now }
    ensures made { IfOk result (IsMosaicOf plane.now layer.now) }
    ensures on { IfOk result (IsLayerOn plane.now) }
{
    let sets = sets_of(alloc, &layer.shapes)?;
    let items = mosaic_sets(alloc, &plane.arcs, &plane.faces, &sets)?;
    let table = ids_table(alloc, items.as_slice())?;
    let shapes = mosaic_shapes(alloc, items.into_vec())?;
    Ok(Layer {
        name: copy_text(alloc, &layer.name)?,
        kind: Kind::Polygon,
        table,
        shapes,
    })
}

fn mosaic_shapes(alloc: Global, items: Vec<MosaicItem>) -> Result<Vec<Shape>, AllocError>
    ensures exact { IfOk result (λ shapes. shapes.items ≡ map piece_shape items.items) }
    ensures count { IfOk result (λ shapes. length shapes.items ≡ length items.items) }
{
    let mut shapes = Vec::new(alloc);
    for item in items {
        shapes.push(Shape::Faces(item.set))?;
    }
    Ok(shapes)
}

fn ids_table(alloc: Global, items: &[MosaicItem]) -> Result<Table, AllocError>
    ensures exact { IfOk result (λ table. table ≡ record { names = codes "ids" ∷ []; rows = map ids_row items.now }) }
    ensures count { IfOk result (λ table. length table.rows ≡ length items.now) }
{
    let rows = holder_rows(alloc, items)?;
    let mut names = NameList::new(alloc);
    names.push(Text::of(alloc, "ids")?)?;
    Ok(Table::new(names, rows))
}

#[tactic(auto, using(run_state::proofs::Rows::rows_grown))]
fn holder_rows(alloc: Global, items: &[MosaicItem]) -> Result<RowList, AllocError>
    ensures exact { IfOk result (λ rows. rows ≡ map ids_row items.now) }
    ensures count { IfOk result (λ rows. length rows ≡ length items.now) }
    ensures widths { IfOk result (λ rows. AreRows 1 rows) }
{
    let mut rows = RowList::new(alloc);
    for item in items {
        rows.push(holder_row(alloc, item)?)?;
    }
    Ok(rows)
}

// The numbers of the holders in one text, joined by commas.
fn holder_row(alloc: Global, item: &MosaicItem) -> Result<Row, AllocError>
    ensures exact { IfOk result (λ row. row ≡ ids_row item.now) }
    ensures width { IfOk result (λ row. length row ≡ 1) }
{
    let text = ids_text(alloc, item.ids.as_slice())?;
    let mut row = Row::new(alloc);
    row.push(Value::Text(Text::from_string(text)))?;
    Ok(row)
}

fn ids_text(alloc: Global, numbers: &[u32]) -> Result<String, AllocError>
    ensures exact { IfOk result (λ text. string_bytes text ≡ ids_text numbers.now) }
{
    let mut text = String::new(alloc);
    let [first, rest @ ..] = numbers else {
        return Ok(text);
    };
    push_number(&mut text, *first)?;
    push_others(&mut text, rest)?;
    Ok(text)
}

fn push_others(text: &mut String, numbers: &[u32]) -> Result<(), AllocError>
    ensures pushed { OnOk result (string_bytes text.new ≡ string_bytes text.old ++ flat_map after_comma numbers.now) }
{
    for number in numbers {
        push_after_comma(text, *number)?;
    }
    Ok(())
}

fn push_after_comma(text: &mut String, number: u32) -> Result<(), AllocError>
    ensures pushed { OnOk result (string_bytes text.new ≡ string_bytes text.old ++ after_comma number) }
{
    text.push_str(",")?;
    push_number(text, number)
}

fn push_number(text: &mut String, number: u32) -> Result<(), AllocError>
    ensures pushed { OnOk result (string_bytes text.new ≡ string_bytes text.old ++ decimal number) }
{
    let mut buffer = Buffer::new();
    text.push_str(buffer.format(number))
}

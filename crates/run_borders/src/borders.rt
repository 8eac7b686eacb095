ghost use Rattle.std.specs.Prelude.{◌≡◌, ◌+◌, ◌<◌, ◌^◌, All, IfErr, IfOk, None, codes, length, map, slice_index_or};
ghost use Rattle.json_values.specs.Table.{AreRows};
ghost use Rattle.run_plane.specs.OnPlane.{IsLayerOn};
ghost use Rattle.run_borders.specs.Borders.{
  AreInnerLines,
  AreOutlines,
  IsAmong,
  bare_table,
  border_line,
  borders_of,
  first_difference,
  line_along,
  ranked_row,
  ranked_table,
  row_between,
  type_and_rank,
};
ghost use Rattle.run_state.specs.Stops.{StopsFor, table_refusal};
ghost use Rattle.table_rows.specs.Columns.{keep_fields};

use crate::paths::path_along;
use arc_table::SignedPaths;
use grid_base::{ArcId, Kind};
use io_core::{NameList, Text};
use json_values::{Row, RowList, Table, Value};
use line_ops::{SidedArc, SidedArcs, inner_arcs, sided_arcs};
use numerals::Decimal;
use run_plane::{Layer, Plane, Shape, copy_text};
use run_state::{CommandStop, sets_of};
use std::alloc::{AllocError, Global};
use table_rows::keep_fields;

/// A line for each arc with holders at both sides, not the same ones, in the order of the arcs; without columns.
///
/// Errors: `AllocError` for want of memory.
pub fn inner_lines(alloc: Global, plane: &Plane, layer: &Layer) -> Result<Layer, AllocError>
    ensures made { IfOk result (AreInnerLines plane.now layer.now) }
    ensures on { IfOk result (IsLayerOn plane.now) }
{
    let sets = sets_of(alloc, &layer.shapes)?;
    let arcs = inner_arcs(alloc, &plane.arcs, &plane.faces, &sets)?;
    let shapes = inner_shapes(alloc, arcs.as_slice())?;
    Ok(Layer {
        name: copy_text(alloc, &layer.name)?,
        kind: Kind::Line,
        table: bare_table(alloc, arcs.len())?,
        shapes,
    })
}

fn inner_shapes(alloc: Global, arcs: &[ArcId]) -> Result<Vec<Shape>, AllocError>
    ensures exact { IfOk result (λ shapes. shapes.items ≡ map line_along arcs.now) }
    ensures count { IfOk result (λ shapes. length shapes.items ≡ length arcs.now) }
{
    let mut shapes = Vec::new(alloc);
    for arc in arcs {
        shapes.push(line_along(alloc, *arc)?)?;
    }
    Ok(shapes)
}

// The line along one arc in its direction.
fn line_along(alloc: Global, arc: ArcId) -> Result<Shape, AllocError>
    ensures exact { IfOk result (λ shape. shape ≡ line_along arc) }
{
    let mut paths = SignedPaths::new(alloc);
    paths.push(path_along(alloc, arc)?)?;
    Ok(Shape::Paths(paths))
}

// A table of `count` rows without columns.
#[tactic(auto, using(run_state::proofs::Rows::rows_grown))]
fn bare_table(alloc: Global, count: u32) -> Result<Table, AllocError>
    ensures exact { IfOk result (λ table. table ≡ bare_table count) }
    ensures count { IfOk result (λ table. length table.rows ≡ count) }
{
    let mut rows = RowList::new(alloc);
    for _row in 0..count {
        rows.push(Row::new(alloc))?;
    }
    Ok(Table::new(NameList::new(alloc), rows))
}

/// A line for each arc that has not the same holders at both sides, with its type and rank, in the order of the arcs.
///
/// `TYPE` is `outer` where one side has no holder, and `RANK` is then 0. Else they are the name and the number, from 1,
/// of the first listed field in which the lowest holders of the two sides differ, or else `inner` and one more than the
/// number of the listed fields.
///
/// Errors: `Refused` with `NoField` or `FieldTwice` at the first listed field, counted from 0, that the table lacks or
/// that stands earlier, and `Memory`.
#[tactic(auto, using(run_state::proofs::Stops::table_stops))]
pub fn outlines(
    alloc: Global,
    plane: &Plane,
    layer: &Layer,
    fields: &NameList,
) -> Result<Layer, CommandStop>
    ensures made { IfOk result (AreOutlines plane.now fields.now layer.now) }
    ensures on { IfOk result (IsLayerOn plane.now) }
    ensures accepted { IfOk result (λ made. table_refusal (keep_fields layer.now.table fields.now) ≡ None) }
    ensures stops { IfErr result (StopsFor (table_refusal (keep_fields layer.now.table fields.now))) }
{
    let listed = keep_fields(alloc, &layer.table, fields)?;
    let arcs = borders_of(alloc, plane, layer)?;
    Ok(ranked_lines(alloc, &layer.name, &listed, arcs.as_slice())?)
}

// The arcs whose two sides have different features, with the lowest feature at each side.
fn borders_of(alloc: Global, plane: &Plane, layer: &Layer) -> Result<SidedArcs, AllocError>
    ensures exact { IfOk result (λ arcs. arcs ≡ borders_of plane.now layer.now) }
    ensures there { IfOk result (All (λ sided. sided.arc < length plane.now.arcs)) }
    ensures among { IfOk result (All (IsAmong (length layer.now.table.rows))) }
{
    let sets = sets_of(alloc, &layer.shapes)?;
    sided_arcs(alloc, &plane.arcs, &plane.faces, &sets)
}

// A line for each of these arcs, with its type and rank.
fn ranked_lines(
    alloc: Global,
    name: &Text,
    listed: &Table,
    arcs: &[SidedArc],
) -> Result<Layer, AllocError>
    requires rows { All (IsAmong (length listed.now.rows)) arcs.now }
    ensures name { IfOk result (λ made. made.name ≡ name.now) }
    ensures kind { IfOk result (λ made. made.kind ≡ Kind.Line) }
    ensures table { IfOk result (λ made. made.table ≡ ranked_table listed.now arcs.now) }
    ensures shapes { IfOk result (λ made. made.shapes.items ≡ map border_line arcs.now) }
{
    let table = ranked_table(alloc, listed, arcs)?;
    let shapes = outline_shapes(alloc, arcs)?;
    Ok(Layer {
        name: copy_text(alloc, name)?,
        kind: Kind::Line,
        table,
        shapes,
    })
}

fn outline_shapes(alloc: Global, arcs: &[SidedArc]) -> Result<Vec<Shape>, AllocError>
    ensures exact { IfOk result (λ shapes. shapes.items ≡ map border_line arcs.now) }
    ensures count { IfOk result (λ shapes. length shapes.items ≡ length arcs.now) }
{
    let mut shapes = Vec::new(alloc);
    for sided in arcs {
        shapes.push(line_along(alloc, sided.arc)?)?;
    }
    Ok(shapes)
}

fn ranked_table(alloc: Global, listed: &Table, arcs: &[SidedArc]) -> Result<Table, AllocError>
    requires rows { All (IsAmong (length listed.now.rows)) arcs.now }
    ensures exact { IfOk result (λ table. table ≡ ranked_table listed.now arcs.now) }
    ensures count { IfOk result (λ table. length table.rows ≡ length arcs.now) }
{
    let rows = ranked_rows(alloc, listed, arcs)?;
    let mut names = NameList::new(alloc);
    names.push(Text::of(alloc, "TYPE")?)?;
    names.push(Text::of(alloc, "RANK")?)?;
    Ok(Table::new(names, rows))
}

#[tactic(auto, using(run_state::proofs::Rows::rows_grown))]
fn ranked_rows(alloc: Global, listed: &Table, arcs: &[SidedArc]) -> Result<RowList, AllocError>
    requires rows { All (IsAmong (length listed.now.rows)) arcs.now }
    ensures exact { IfOk result (λ rows. rows ≡ map (ranked_row listed.now) arcs.now) }
    ensures count { IfOk result (λ rows. length rows ≡ length arcs.now) }
    ensures widths { IfOk result (λ rows. AreRows 2 rows) }
{
    let mut rows = RowList::new(alloc);
    for sided in arcs {
        rows.push(ranked_row(alloc, listed, sided)?)?;
    }
    Ok(rows)
}

// The type and rank of an arc, by the rows of the lowest holders of its sides.
fn ranked_row(alloc: Global, listed: &Table, sided: &SidedArc) -> Result<Row, AllocError>
    requires rows { IsAmong (length listed.now.rows) sided.now }
    ensures exact { IfOk result (λ row. row ≡ ranked_row listed.now sided.now) }
    ensures width { IfOk result (λ row. length row ≡ 2) }
{
    match (sided.left, sided.right) {
        (Some(left), Some(right)) => {
            let rows = listed.rows().as_slice();
            row_between(
                alloc,
                listed.names(),
                &rows[left as usize],
                &rows[right as usize],
            )
        }
        _ => type_and_rank(alloc, "outer", 0),
    }
}

// The type and rank of an arc between features with these rows of one length.
fn row_between(alloc: Global, fields: &NameList, left: &Row, right: &Row) -> Result<Row, AllocError>
    requires alike { length left.now ≡ length right.now }
    ensures exact { IfOk result (λ row. row ≡ row_between fields.now left.now right.now) }
    ensures width { IfOk result (λ row. length row ≡ 2) }
{
    let number = first_difference(left, right);
    type_and_rank(alloc, name_or_inner(fields, number), u64::from(number) + 1)
}

fn type_and_rank(alloc: Global, name: &str, rank: u64) -> Result<Row, AllocError>
    requires small { rank < 10 ^ 18 }
    ensures exact { IfOk result (λ row. row ≡ type_and_rank name.now rank) }
    ensures width { IfOk result (λ row. length row ≡ 2) }
{
    let mut row = Row::new(alloc);
    row.push(Value::Text(Text::of(alloc, name)?))?;
    row.push(Value::Num(Decimal::of_grid(rank as i64, 0)))?;
    Ok(row)
}

// The name of the field with this number, from 0; `inner` after the last.
fn name_or_inner(fields: &NameList, number: u32) -> &str
    ensures exact { result.now ≡ slice_index_or fields.now number (codes "inner") }
{
    match fields.get(number) {
        Some(name) => name.as_str(),
        None => "inner",
    }
}

// The number of the first value, from 0, in which two rows of one length differ, or that of their values.
fn first_difference(left: &Row, right: &Row) -> u32
    requires alike { length left.now ≡ length right.now }
    ensures exact { result ≡ first_difference left.now right.now }
{
    let count = left.len();
    let ours = left.as_slice();
    let theirs = right.as_slice();
    for number in 0..count {
        let place = number as usize;
        if !ours[place].same(&theirs[place]) {
            return number;
        }
    }
    count
}

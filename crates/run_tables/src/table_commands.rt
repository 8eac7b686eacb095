ghost use Rattle.run_tables.specs.Gathering.{all_rows};
ghost use Rattle.std.specs.Prelude.{◌≡◌, ◌<◌, ◌++◌, IfErr, IfOk, None, OnOk, Some, All, length, map, option_copied, true};
ghost use Rattle.std.specs.List.{flat_map};
ghost use Rattle.std.specs.List.Sorted.{IsStrictlyIncreasing};
ghost use Rattle.run_state.specs.Stops.{StopsFor, table_refusal};
ghost use Rattle.run_state.specs.Targets.{has_target, targets};
ghost use Rattle.table_rows.specs.Columns.{keep_fields, rename_fields};
ghost use Rattle.spatial_join.specs.Joined.{join_matched};
ghost use Rattle.table_ops.specs.Join.{join_tables};
ghost use Rattle.run_tables.specs.Made.{GivesTable, HasTable, IsFiltered, IsMerged, kept_numbers, refused_layers};

use expr_lang::Expr;
use grid_base::{GroupList, IdList};
use io_core::NameList;
use job_terms::Target;
use join_terms::{CalcSpec, JoinSpec};
use json_values::Table;
use run_plane::{Layer, Shape, copy_shape, copy_shapes, copy_text};
use run_state::{
    CommandStop, HeldLayer, first_target, is_selected, numbers_below, take_features, with_geometry,
};
use spatial_join::join_matched;
use std::alloc::{AllocError, Global};
use table_ops::{filter_rows, join_tables};
use table_rows::{TableList, copy_table, keep_fields, merge_tables, rename_fields};
use table_terms::RenameList;

/// The features for which the expression is true, or, with `invert`, false; with `remove_empty` those without
/// geometry go too.
///
/// Errors: `Refused` at the first row, counted from 0, for which the expression is no boolean, and `Memory`.
pub fn filtered(
    alloc: Global,
    layer: &Layer,
    test: Option<&Expr>,
    invert: bool,
    remove_empty: bool,
) -> Result<Layer, CommandStop>
    ensures made { IfOk result (IsFiltered (option_copied test.entry) invert remove_empty layer.now) }
    ensures accepted { IfOk result (λ made. table_refusal (kept_numbers (option_copied test.entry) invert layer.now) ≡ None) }
    ensures stops { IfErr result (StopsFor (table_refusal (kept_numbers (option_copied test.entry) invert layer.now))) }
{
    let kept = kept_numbers(alloc, layer, test, invert)?;
    if !remove_empty {
        return Ok(take_features(alloc, layer, &kept)?);
    }
    let kept = with_geometry(alloc, &layer.shapes, &kept)?;
    Ok(take_features(alloc, layer, &kept)?)
}

#[tactic(auto, using(run_state::proofs::Stops::table_stops))]
fn kept_numbers(
    alloc: Global,
    layer: &Layer,
    test: Option<&Expr>,
    invert: bool,
) -> Result<IdList, CommandStop>
    ensures kept { IfOk result (λ kept. kept_numbers (option_copied test.entry) invert layer.now ≡ Ok kept) }
    ensures stops { IfErr result (StopsFor (table_refusal (kept_numbers (option_copied test.entry) invert layer.now))) }
    ensures within { IfOk result (λ kept. All (λ n. n < length layer.now.table.rows) kept) }
{
    match test {
        Some(test) => Ok(filter_rows(alloc, &layer.table, test, invert)?),
        None => Ok(numbers_below(alloc, layer.table.row_count())?),
    }
}

/// The layer with these columns alone, in this order.
///
/// Errors: `Refused` with `NoField` or `FieldTwice` at the first name, counted from 0, that is of no column or stands
/// earlier, and `Memory`.
#[tactic(auto, using(run_state::proofs::Stops::table_stops))]
pub fn with_fields(alloc: Global, layer: &Layer, fields: &NameList) -> Result<Layer, CommandStop>
    ensures made { IfOk result (GivesTable (keep_fields layer.now.table fields.now) layer.now) }
    ensures accepted { IfOk result (λ made. table_refusal (keep_fields layer.now.table fields.now) ≡ None) }
    ensures stops { IfErr result (StopsFor (table_refusal (keep_fields layer.now.table fields.now))) }
{
    let table = keep_fields(alloc, &layer.table, fields)?;
    Ok(with_table(alloc, layer, table)?)
}

/// The layer with columns under other names.
///
/// Errors: `Refused` with what `rename_fields` refuses the table for, and `Memory`.
#[tactic(auto, using(run_state::proofs::Stops::table_stops))]
pub fn renamed(alloc: Global, layer: &Layer, pairs: &RenameList) -> Result<Layer, CommandStop>
    ensures made { IfOk result (GivesTable (rename_fields layer.now.table pairs.now) layer.now) }
    ensures accepted { IfOk result (λ made. table_refusal (rename_fields layer.now.table pairs.now) ≡ None) }
    ensures stops { IfErr result (StopsFor (table_refusal (rename_fields layer.now.table pairs.now))) }
{
    let table = rename_fields(alloc, &layer.table, pairs)?;
    Ok(with_table(alloc, layer, table)?)
}

/// The layer with the columns of the rows of `source` whose key is the same.
///
/// Errors: `Refused` with what `join_tables` refuses the tables for, and `Memory`.
#[tactic(auto, using(run_state::proofs::Stops::table_stops))]
pub fn joined(
    alloc: Global,
    layer: &Layer,
    source: &Layer,
    spec: &JoinSpec,
) -> Result<Layer, CommandStop>
    ensures made { IfOk result (GivesTable (join_tables layer.now.table source.now.table spec.now) layer.now) }
    ensures accepted { IfOk result (λ made. table_refusal (join_tables layer.now.table source.now.table spec.now) ≡ None) }
    ensures stops { IfErr result (StopsFor (table_refusal (join_tables layer.now.table source.now.table spec.now))) }
{
    let table = join_tables(alloc, &layer.table, &source.table, spec)?;
    Ok(with_table(alloc, layer, table)?)
}

/// The layer with the columns of the rows of `source` that match each of its rows, and what is calculated of these. For
/// each row `matches` has their numbers, counted from 0 and ascending.
///
/// Errors: `Refused` with what `join_matched` refuses the tables for, and `Memory`.
#[tactic(auto, using(run_state::proofs::Stops::table_stops))]
pub fn joined_by_matches(
    alloc: Global,
    layer: &Layer,
    source: &Layer,
    matches: &GroupList,
    spec: &CalcSpec,
) -> Result<Layer, CommandStop>
    requires each { length matches.now ≡ length layer.now.table.rows }
    requires ascending { All IsStrictlyIncreasing matches.now }
    ensures made { IfOk result (GivesTable (join_matched layer.now.table source.now.table matches.now spec.now) layer.now) }
    ensures accepted { IfOk result (λ made. table_refusal (join_matched layer.now.table source.now.table matches.now spec.now) ≡ None) }
    ensures stops { IfErr result (StopsFor (table_refusal (join_matched layer.now.table source.now.table matches.now spec.now))) }
{
    let table = join_matched(alloc, &layer.table, &source.table, matches, spec)?;
    Ok(with_table(alloc, layer, table)?)
}

/// The layer with another table, which has as many rows.
///
/// Errors: `AllocError` for want of memory.
pub(crate) fn with_table(alloc: Global, layer: &Layer, table: Table) -> Result<Layer, AllocError>
    requires { length table.rows ≡ length layer.now.table.rows }
    ensures made { IfOk result (HasTable layer.now table) }
{
    let shapes = copy_shapes(alloc, &layer.shapes)?;
    Ok(Layer {
        name: copy_text(alloc, &layer.name)?,
        kind: layer.kind,
        table,
        shapes,
    })
}

/// The features of the target's layers, in order, in a layer like the first.
///
/// Errors: `Refused` with what `merge_tables` refuses the tables for, and `Memory`.
#[tactic(auto, using(crate::proofs::Gathering::merged_count, crate::proofs::Gathering::some_tables, crate::proofs::Gathering::merge_stops))]
pub fn merged(
    alloc: Global,
    layers: &[HeldLayer],
    target: &Target,
    force: bool,
) -> Result<Layer, CommandStop>
    requires there { has_target target.now layers.now ≡ true }
    ensures made { IfOk result (IsMerged force (targets target.now layers.now)) }
    ensures accepted { IfOk result (λ made. refused_layers force (targets target.now layers.now) ≡ None) }
    ensures stops { IfErr result (StopsFor (refused_layers force (targets target.now layers.now))) }
{
    let first = first_target(layers, target);
    let Gathered { tables, shapes } = gather(alloc, layers, target)?;
    let table = merge_tables(alloc, &tables, force)?;
    Ok(Layer {
        name: copy_text(alloc, &first.name)?,
        kind: first.kind,
        table,
        shapes,
    })
}

// The tables of layers, and their shapes one after another.
#[derive(Drop)]
struct Gathered {
    tables: TableList,
    shapes: Vec<Shape>,
    ghost each: { length shapes.items ≡ length (all_rows tables) },
}

#[tactic(auto, using(run_state::proofs::TargetLemmas::targets_on, run_state::proofs::TargetLemmas::targets_off))]
fn gather(alloc: Global, layers: &[HeldLayer], target: &Target) -> Result<Gathered, AllocError>
    ensures tables { IfOk result (λ all. all.tables ≡ map (λ layer. layer.table) (targets target.now layers.now)) }
    ensures shapes { IfOk result (λ all. all.shapes.items ≡ flat_map (λ layer. layer.shapes.items) (targets target.now layers.now)) }
{
    let mut tables = TableList::new(alloc);
    let mut shapes = Vec::new(alloc);
    for held in layers {
        if is_selected(target, held) {
            tables.push(copy_table(alloc, &held.layer.table)?)?;
            append_shapes(alloc, &mut shapes, &held.layer.shapes)?;
        }
    }
    Ok(Gathered { tables, shapes })
}

fn append_shapes(alloc: Global, out: &mut Vec<Shape>, shapes: &[Shape]) -> Result<(), AllocError>
    ensures appended { OnOk result (out.new.items ≡ out.old.items ++ shapes.now) }
{
    for shape in shapes {
        out.push(copy_shape(alloc, shape)?)?;
    }
    Ok(())
}

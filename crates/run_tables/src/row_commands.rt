ghost use Rattle.std.specs.Prelude.{◌≡◌, IfErr, IfOk, None};
ghost use Rattle.expr_lang.specs.Tree.{all_assigned, tree_of};
ghost use Rattle.calc_ops.specs.EachRow.{each_rows};
ghost use Rattle.calc_ops.specs.EarlyRows.{uniq_rows};
ghost use Rattle.calc_ops.specs.KeyOrder.{sort_rows};
ghost use Rattle.run_state.specs.Stops.{StopsFor, table_refusal};
ghost use Rattle.run_tables.specs.Made.{GivesTable, TakesNumbers};

use crate::table_commands::with_table;
use calc_ops::{each_rows, sort_rows, uniq_rows};
use expr_lang::{AssignList, Expr};
use run_plane::Layer;
use run_state::{CommandStop, take_features};
use std::alloc::Global;

/// The layer with the fields that the assignments set, row by row; the shapes stay.
///
/// Errors: `Refused` at the first row, counted from 0, and in it the first assignment whose expression has a fault, and
/// `Memory`.
#[tactic(auto, using(run_state::proofs::Stops::table_stops))]
pub fn calculated(alloc: Global, layer: &Layer, assigns: &AssignList) -> Result<Layer, CommandStop>
    ensures made { IfOk result (GivesTable (each_rows layer.now.table (all_assigned assigns.now)) layer.now) }
    ensures accepted { IfOk result (λ made. table_refusal (each_rows layer.now.table (all_assigned assigns.now)) ≡ None) }
    ensures stops { IfErr result (StopsFor (table_refusal (each_rows layer.now.table (all_assigned assigns.now)))) }
{
    let table = each_rows(alloc, &layer.table, assigns)?;
    Ok(with_table(alloc, layer, table)?)
}

/// The features in the order of their keys. The key of a feature is the value of the expression for its row.
///
/// Errors: `Refused` at the first row, counted from 0, for which the expression has a fault, and `Memory`.
#[tactic(auto, using(run_state::proofs::Stops::table_stops))]
pub fn sorted(
    alloc: Global,
    layer: &Layer,
    key: &Expr,
    descending: bool,
) -> Result<Layer, CommandStop>
    ensures made { IfOk result (TakesNumbers (sort_rows layer.now.table (tree_of key.now) descending) layer.now) }
    ensures accepted { IfOk result (λ made. table_refusal (sort_rows layer.now.table (tree_of key.now) descending) ≡ None) }
    ensures stops { IfErr result (StopsFor (table_refusal (sort_rows layer.now.table (tree_of key.now) descending))) }
{
    let order = sort_rows(alloc, &layer.table, key, descending)?;
    Ok(take_features(alloc, layer, &order)?)
}

/// The features whose key fewer than `most` features before them have, or, with `invert`, the others.
///
/// Errors: those of `sorted`.
#[tactic(auto, using(run_state::proofs::Stops::table_stops))]
pub fn unrepeated(
    alloc: Global,
    layer: &Layer,
    key: &Expr,
    most: u32,
    invert: bool,
) -> Result<Layer, CommandStop>
    ensures made { IfOk result (TakesNumbers (uniq_rows layer.now.table (tree_of key.now) most invert) layer.now) }
    ensures accepted { IfOk result (λ made. table_refusal (uniq_rows layer.now.table (tree_of key.now) most invert) ≡ None) }
    ensures stops { IfErr result (StopsFor (table_refusal (uniq_rows layer.now.table (tree_of key.now) most invert))) }
{
    let kept = uniq_rows(alloc, &layer.table, key, most, invert)?;
    Ok(take_features(alloc, layer, &kept)?)
}

ghost use Rattle.std.specs.Prelude.{◌≡◌, ◌++◌, [], Ok, IfOk, length, map, unwrap_or};
ghost use Rattle.std.specs.List.{IsDistinct};
ghost use Rattle.std.specs.Str.{bytes_eq};
ghost use Rattle.table_ops.specs.Join.{copied_name, new_fields};
ghost use Rattle.table_ops.specs.JoinColumns.{columns_of, join_of};
ghost use Rattle.table_rows.specs.Refusals.{AnswersAs};
ghost use Rattle.table_terms.specs.Refusals.{unless};
ghost use Rattle.spatial_join.specs.Joined.{as_join, calc_name, joined_names, refused_calc, refused_items};

use crate::calculations::{append_names, check_calculations};
use join_terms::CalcSpec;
use std::alloc::Global;
use table_ops::{Columns, CopiedFields, check_fields, copied_columns, copied_names};
use table_rows::TableFault;
use table_terms::NameSet;
use text_core::NameList;

/// The columns of the target and after them those of the copied fields whose names are new, and all names: those of
/// the calculated columns stand last.
///
/// Errors: those of `join_matched` for listed fields and calculations.
pub(crate) fn joined_columns(
    alloc: Global,
    target: &NameList,
    targets: &NameSet,
    source: &NameList,
    sources: &NameSet,
    spec: &CalcSpec,
) -> Result<Columns, TableFault>
    requires target { targets.now ≡ target.now }
    requires source { sources.now ≡ source.now }
    requires targets_differ { IsDistinct bytes_eq target.now }
    requires sources_differ { IsDistinct bytes_eq source.now }
    ensures exact { AnswersAs (λ c. c.names) result (unless (refused_items target.now source.now spec.now) (Ok (joined_names target.now source.now spec.now))) }
    ensures cells { IfOk result (λ c. c.cells.items ≡ columns_of target.now source.now (as_join source.now spec.now)) }
    ensures distinct { IfOk result (λ c. IsDistinct bytes_eq c.names) }
{
    check_fields(alloc, sources, 0, &spec.fields)?;
    let fields = fields_of(source, &spec.fields);
    let copied = CopiedFields {
        fields,
        names: copied_names(alloc, fields, &spec.prefix)?,
        prefix: &spec.prefix,
        force: spec.force,
    };
    calculated_columns(alloc, target, targets, sources, &copied, spec)
}

// The columns of the target and of the copied fields, and the names of all, once the calculations are tested.
fn calculated_columns(
    alloc: Global,
    target: &NameList,
    targets: &NameSet,
    sources: &NameSet,
    copied: &CopiedFields,
    spec: &CalcSpec,
) -> Result<Columns, TableFault>
    requires target { targets.now ≡ target.now }
    requires copied { copied.now.names ≡ map (copied_name (join_of copied.now)) copied.now.fields.now }
    requires targets_differ { IsDistinct bytes_eq target.now }
    requires fields_differ { IsDistinct bytes_eq copied.now.fields.now }
    ensures exact { AnswersAs (λ c. c.names) result (unless (refused_calc sources.now (target.now ++ copied.now.names) (length (unwrap_or spec.now.fields [])) spec.now.calc) (Ok (target.now ++ map (copied_name (join_of copied.now)) (new_fields target.now sources.now (join_of copied.now)) ++ map calc_name spec.now.calc))) }
    ensures cells { IfOk result (λ c. c.cells.items ≡ columns_of target.now sources.now (join_of copied.now)) }
    ensures distinct { IfOk result (λ c. IsDistinct bytes_eq c.names) }
{
    let calculations = spec.calc.as_slice();
    let first = listed_count(&spec.fields);
    check_calculations(alloc, targets, sources, &copied.names, first, calculations)?;
    let mut columns = copied_columns(alloc, target, targets, sources, copied)?;
    append_names(alloc, &mut columns.names, calculations)?;
    Ok(columns)
}

// The copied fields: the listed ones, else all.
fn fields_of<'a>(source: &'a NameList, listed: &'a Option<NameList>) -> &'a NameList
    ensures fields { result.now ≡ unwrap_or listed.now source.now }
{
    match listed {
        Some(fields) => fields,
        None => source,
    }
}

fn listed_count(fields: &Option<NameList>) -> u32
    ensures count { result ≡ length (unwrap_or fields.now []) }
{
    match fields {
        Some(fields) => fields.len(),
        None => 0,
    }
}

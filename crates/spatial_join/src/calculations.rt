ghost use Rattle.std.specs.Prelude.{◌≡◌, ◌<◌, ◌+◌, ◌++◌, ◌∷◌, [], All, IfOk, OnOk, length, map};
ghost use Rattle.table_rows.specs.Refusals.{Answers, Refuses};
ghost use Rattle.spatial_join.specs.CalcColumns.{calculated_at, summed_place, with_sums};
ghost use Rattle.spatial_join.specs.Joined.{calc_name, lacks_field, refused_calc};

use grid_base::IdList;
use join_terms::Calc;
use json_values::{Row, RowList, Value};
use numerals::Decimal;
use std::alloc::{AllocError, Global};
use table_rows::{TableFault, TableWhy, column_sum};
use table_terms::NameSet;
use text_core::{NameList, Text};

/// Tests the calculations, which count from `first`: the source has the field of each sum, and the name of each is that
/// of no column of the target, of no copied field and of no earlier calculation.
///
/// Errors: `NoField` and `FieldTwice` at the first item of which that isn't so, and `Memory`.
pub(crate) fn check_calculations(
    alloc: Global,
    targets: &NameSet,
    sources: &NameSet,
    copied: &NameSet,
    first: u32,
    calculations: &[Calc],
) -> Result<(), TableFault>
    ensures exact { Refuses result (refused_calc sources.now (targets.now ++ copied.now) first calculations.now) }
{
    let mut seen = NameSet::new(alloc);
    for calc in calculations {
        check_calculation(alloc, targets, sources, copied, &mut seen, first, calc)?;
    }
    Ok(())
}

fn check_calculation(
    alloc: Global,
    targets: &NameSet,
    sources: &NameSet,
    copied: &NameSet,
    seen: &mut NameSet,
    first: u32,
    calc: &Calc,
) -> Result<(), TableFault>
    ensures exact { Refuses result (refused_calc sources.now ((targets.now ++ copied.now) ++ seen.old) (first + length seen.old) (calc.now ∷ [])) }
    ensures seen { OnOk result (seen.new ≡ seen.old ++ calc_name calc.now ∷ []) }
{
    let Some(item) = first.checked_add(seen.len()) else {
        return Err(TableFault::Memory);
    };
    if lacks_field(sources, calc) {
        let why = TableWhy::NoField { item };
        return Err(TableFault::Bad { why });
    }
    let name = name_of(calc);
    if targets.has(name) || copied.has(name) || !seen.add(alloc, name)? {
        let why = TableWhy::FieldTwice { item };
        return Err(TableFault::Bad { why });
    }
    Ok(())
}

fn lacks_field(sources: &NameSet, calc: &Calc) -> bool
    ensures exact { result ≡ lacks_field sources.now calc.now }
{
    match calc {
        Calc::Count { name: _ } => false,
        Calc::Sum { name: _, field } => !sources.has(field.as_str()),
    }
}

fn name_of(calc: &Calc) -> &str
    ensures name { result.now ≡ calc_name calc.now }
{
    match calc {
        Calc::Count { name } => name.as_str(),
        Calc::Sum { name, field: _ } => name.as_str(),
    }
}

/// Appends the names of calculations to others.
///
/// Errors: `AllocError` for want of memory.
pub(crate) fn append_names(
    alloc: Global,
    names: &mut NameList,
    calculations: &[Calc],
) -> Result<(), AllocError>
    ensures appended { OnOk result (names.new ≡ names.old ++ map calc_name calculations.now) }
{
    for calc in calculations {
        names.push(Text::of(alloc, name_of(calc))?)?;
    }
    Ok(())
}

/// For each calculation the place of the field that it sums, counted from 0, and none for a count.
///
/// Errors: `AllocError` for want of memory.
pub(crate) fn summed_places(
    alloc: Global,
    sources: &NameSet,
    calculations: &[Calc],
) -> Result<Vec<Option<u32>>, AllocError>
    ensures places { IfOk result (λ places. places.items ≡ map (summed_place sources.now) calculations.now) }
{
    let mut places = Vec::new(alloc);
    for calc in calculations {
        places.push(summed_place(sources, calc))?;
    }
    Ok(places)
}

fn summed_place(sources: &NameSet, calc: &Calc) -> Option<u32>
    ensures place { result ≡ summed_place sources.now calc.now }
{
    match calc {
        Calc::Count { name: _ } => None,
        Calc::Sum { name: _, field } => Some(sources.place_or_end(field.as_str())),
    }
}

/// Values, followed by those that are calculated of the rows with these numbers: for each place the sum there, and for
/// none how many rows they are. Rows and places are counted from 0.
///
/// Errors: `NotNumber` and `SumRange` at the first row that cannot be added, and `Memory`.
pub(crate) fn with_sums(
    values: Row,
    rows: &RowList,
    matched: &IdList,
    places: &[Option<u32>],
) -> Result<Row, TableFault>
    requires within { All (λ n. n < length rows.now) matched.now }
    ensures exact { Answers result (with_sums values rows.now matched.now places.now) }
{
    let mut row = values;
    for place in places {
        match calculated(rows, matched, *place) {
            Ok(number) => row.push(Value::Num(number))?,
            Err(why) => return Err(TableFault::Bad { why }),
        }
    }
    Ok(row)
}

// How many rows they are, or the sum at a place over them, or the first of them that cannot be added.
fn calculated(rows: &RowList, matched: &IdList, place: Option<u32>) -> Result<Decimal, TableWhy>
    requires within { All (λ n. n < length rows.now) matched.now }
    ensures exact { result ≡ calculated_at rows.now matched.now place }
{
    match place {
        None => Ok(Decimal::of_grid(matched.len() as i64, 0)),
        Some(place) => column_sum(rows, matched, place),
    }
}

//! Calls of `expr_lang`.
//!
//! An expression is a text, or a list: a number of times, a text that stands so often at its front, the text in its
//! middle, and one that stands so often at its end.
//!
//! - `parse` takes an expression; it answers `read`, or the fault.
//! - `eval` takes an expression; it answers the JSON text of its value for feature 7, whose columns are `columns` and
//!   whose cells are `cells`, or the fault.
use case_lists::{bytes_of_text, number_at, text_at, told, unknown_call};
use expr_lang::{Expr, eval};
use io_core::{Bytes, NameList, Text};
use json_values::{Json, Row, Value};
use numerals::Decimal;
use std::alloc::{AllocError, Global};

const COLUMNS: [&str; 4] = ["pop", "name", "e", "nothing"];

/// What a call of `expr_lang` answers to a case, as this module says; to a call that isn't there, what `unknown_call`
/// answers.
pub fn answer(alloc: Global, call: &str, case: &[Json]) -> Result<Bytes, AllocError> {
    let text = expression_of(alloc, case)?;
    match call {
        "parse" => parsed(alloc, text.as_str()),
        "eval" => evaluated(alloc, text.as_str()),
        _ => unknown_call(alloc),
    }
}

fn parsed(alloc: Global, text: &str) -> Result<Bytes, AllocError> {
    match Expr::parse(alloc, text) {
        Ok(_) => bytes_of_text(alloc, "read"),
        Err(fault) => told(alloc, &fault),
    }
}

fn evaluated(alloc: Global, text: &str) -> Result<Bytes, AllocError> {
    match Expr::parse(alloc, text) {
        Ok(expression) => value_text(alloc, &expression),
        Err(fault) => told(alloc, &fault),
    }
}

fn expression_of(alloc: Global, case: &[Json]) -> Result<String, AllocError> {
    match case.first() {
        Some(Json::List(parts)) => nested(alloc, parts.as_slice()),
        _ => String::from_str(alloc, text_at(case, 0)),
    }
}

fn nested(alloc: Global, parts: &[Json]) -> Result<String, AllocError> {
    let times = number_at(parts, 0);
    let mut text = String::new(alloc);
    push_times(&mut text, times, text_at(parts, 1))?;
    text.push_str(text_at(parts, 2))?;
    push_times(&mut text, times, text_at(parts, 3))?;
    Ok(text)
}

fn push_times(text: &mut String, times: u32, part: &str) -> Result<(), AllocError> {
    for _ in 0..times {
        text.push_str(part)?;
    }
    Ok(())
}

fn value_text(alloc: Global, expression: &Expr) -> Result<Bytes, AllocError> {
    match eval(alloc, expression, &columns(alloc)?, &cells(alloc)?, 7) {
        Ok(value) => {
            let mut out = Bytes::new(alloc);
            value.print_json(&mut out)?;
            Ok(out)
        }
        Err(fault) => told(alloc, &fault),
    }
}

fn columns(alloc: Global) -> Result<NameList, AllocError> {
    let mut names = NameList::new(alloc);
    for name in COLUMNS {
        names.push(Text::of(alloc, name)?)?;
    }
    Ok(names)
}

fn cells(alloc: Global) -> Result<Row, AllocError> {
    let mut row = Row::new(alloc);
    row.push(Value::Num(Decimal::of_grid(2000, 0)))?;
    row.push(Value::Text(Text::of(alloc, "a")?))?;
    row.push(Value::Long(Text::of(alloc, "1e-30")?))?;
    row.push(Value::Null)?;
    Ok(row)
}

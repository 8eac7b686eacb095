ghost use Rattle.std.specs.Prelude.{◌≡◌, ◌≤◌, ℤ, ◌+ℤ◌, IfOk, IfSome, None, Some, MatchOption, unsigned_abs, if◌then◌else◌};
ghost use Rattle.grid_base.specs.Grid.{most_places};
ghost use Rattle.grid_base.specs.Sizes.{IsStep};
ghost use Rattle.json_values.specs.Seen.{json_value};
ghost use Rattle.numerals.specs.Units.{counted, units_cap};
ghost use Rattle.geojson_io.specs.Reads.{on_ok};
ghost use Rattle.topo_io.specs.Positions.{at_sums, is_sum, lone_position, plain, position_after, sums_after, whole_pair};

use crate::fault::TopoWhy;
use crate::frame::{Frame, Transform};
use geojson_io::{ShapeWhy, place};
use grid_base::{LIMIT, Pt};
use json_values::Json;
use numerals::whole_units;

/// The sums of quantized positions stay within this, either way: twice the limit of the grid.
const SUM_LIMIT: u128 = 2 * LIMIT as u128;

/// The sums of the quantized positions of an arc, up to some position.
#[derive(Clone, Copy)]
pub struct Sums {
    pub x: i64,
    pub y: i64,
}

impl Sums {
    /// The sums before the first position of an arc, which alone is no difference from another (TopoJSON 1.0).
    pub const START: Sums = Sums { x: 0, y: 0 };
}

/// The point of a position after such sums, and the sums up to it.
pub fn position_after(json: &Json, frame: &Frame, before: Sums) -> Result<(Pt, Sums), TopoWhy>
    requires { frame.now.places ≤ most_places }
    ensures exact { result ≡ position_after frame.now (json_value json.now) before }
{
    match &frame.transform {
        None => Ok((plain(json, frame.places)?, before)),
        Some(transform) => quantized(json, transform, frame.places, before),
    }
}

/// The point of a position by itself.
pub fn lone_position(json: &Json, frame: &Frame) -> Result<Pt, TopoWhy>
    requires { frame.now.places ≤ most_places }
    ensures exact { result ≡ lone_position frame.now (json_value json.now) }
{
    let (point, _) = position_after(json, frame, Sums::START)?;
    Ok(point)
}

// The point of a position without a transform.
fn plain(json: &Json, places: u8) -> Result<Pt, TopoWhy>
    ensures exact { result ≡ plain places (json_value json.now) }
{
    match place(json, places) {
        Ok(point) => Ok(point),
        Err(ShapeWhy::Range) => Err(TopoWhy::Range),
        Err(_) => Err(TopoWhy::BadPosition),
    }
}

fn quantized(
    json: &Json,
    transform: &Transform,
    places: u8,
    before: Sums,
) -> Result<(Pt, Sums), TopoWhy>
    requires { places ≤ most_places }
    ensures exact { result ≡ on_ok (sums_after (json_value json.now) before) (at_sums transform.now places) }
{
    let sums = sums_after(json, before)?;
    match transform.point(sums.x, sums.y, places) {
        Some(point) => Ok((point, sums)),
        None => Err(TopoWhy::Range),
    }
}

fn sums_after(json: &Json, before: Sums) -> Result<Sums, TopoWhy>
    ensures exact { result ≡ sums_after (json_value json.now) before }
    ensures across { IfOk result (λ s. IsStep s.x) }
    ensures upward { IfOk result (λ s. IsStep s.y) }
{
    let Some((x, y)) = whole_pair(json) else {
        return Err(TopoWhy::BadPosition);
    };
    let Some(x) = sum(before.x, x) else {
        return Err(TopoWhy::TransformRange);
    };
    let Some(y) = sum(before.y, y) else {
        return Err(TopoWhy::TransformRange);
    };
    Ok(Sums { x, y })
}

// The two whole numbers that a position begins with; they are counted no further than 10^37, either way.
fn whole_pair(json: &Json) -> Option<(i128, i128)>
    ensures exact { MatchOption result (whole_pair (json_value json.now) ≡ None)
        (λ p. (x y : ℤ) × (whole_pair (json_value json.now) ≡ Some (x, y)) × (p.0 ≡ counted x) × (p.1 ≡ counted y)) }
    ensures across { IfSome result (λ p. unsigned_abs p.0 ≤ units_cap) }
    ensures upward { IfSome result (λ p. unsigned_abs p.1 ≤ units_cap) }
{
    let Json::List(list) = json else {
        return None;
    };
    let Some(Json::Num(x)) = list.get(0) else {
        return None;
    };
    let Some(Json::Num(y)) = list.get(1) else {
        return None;
    };
    Some((whole_units(x.as_str(), 0)?, whole_units(y.as_str(), 0)?))
}

fn sum(before: i64, step: i128) -> Option<i64>
    requires { unsigned_abs step ≤ units_cap }
    ensures exact { (z : ℤ) → step ≡ counted z → result ≡ (if is_sum (before +ℤ z) then Some (before +ℤ z) else None) }
    ensures small { IfSome result IsStep }
{
    let sum = i128::from(before) + step;
    if sum.unsigned_abs() <= SUM_LIMIT {
        Some(sum as i64)
    } else {
        None
    }
}

ghost use Rattle.std.specs.Prelude.{◌≡◌, codes, None, Some, MatchOption};
ghost use Rattle.std.specs.Option.{option_copied, option_map};
ghost use Rattle.json_values.specs.Lists.{fields_list, value_named};
ghost use Rattle.json_values.specs.Seen.{json_value};
ghost use Rattle.topo_io.specs.Positions.{axis_of, number_pair, transform_by, transform_of};

use crate::fault::TopoWhy;
use crate::frame::{Axis, Transform};
use json_values::{Json, JsonFields};
use numerals::whole_units;

/// The transform of a topology, which may be absent.
pub fn transform_of(json: Option<&Json>) -> Result<Option<Transform>, TopoWhy>
    ensures exact { result ≡ transform_of (option_map json_value (option_copied json.entry)) }
{
    match json {
        None => Ok(None),
        Some(Json::Object(members)) => transform_in(members),
        _ => Err(TopoWhy::NotTopology),
    }
}

fn transform_in(members: &JsonFields) -> Result<Option<Transform>, TopoWhy>
    ensures exact { result ≡ transform_by (number_pair (value_named (codes "scale") (fields_list members.now))) (number_pair (value_named (codes "translate") (fields_list members.now))) }
{
    let Some((kx, ky)) = pair_of(members.find("scale")) else {
        return Err(TopoWhy::NotTopology);
    };
    let Some((tx, ty)) = pair_of(members.find("translate")) else {
        return Err(TopoWhy::NotTopology);
    };
    let Some(x) = axis_of(kx, tx) else {
        return Err(TopoWhy::TransformRange);
    };
    let Some(y) = axis_of(ky, ty) else {
        return Err(TopoWhy::TransformRange);
    };
    Ok(Some(Transform { x, y }))
}

// A list of just two numbers.
fn pair_of(json: Option<&Json>) -> Option<(&str, &str)>
    ensures exact { MatchOption result (number_pair (option_map json_value (option_copied json.entry)) ≡ None)
        (λ p. number_pair (option_map json_value (option_copied json.entry)) ≡ Some (p.0.now, p.1.now)) }
{
    let Some(Json::List(list)) = json else {
        return None;
    };
    if list.len() != 2 {
        return None;
    }
    let Some(Json::Num(first)) = list.get(0) else {
        return None;
    };
    let Some(Json::Num(second)) = list.get(1) else {
        return None;
    };
    Some((first.as_str(), second.as_str()))
}

fn axis_of(scale: &str, offset: &str) -> Option<Axis>
    ensures exact { result ≡ axis_of scale.now offset.now }
{
    Axis::of(whole_units(scale, 28)?, whole_units(offset, 28)?)
}

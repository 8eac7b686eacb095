ghost use Rattle.std.specs.Prelude.{ℕ, map};
ghost use Rattle.json_values.specs.Json.{JsonValue};
ghost use Rattle.json_values.specs.Seen.{json_value};
ghost use Rattle.geojson_io.specs.Reads.{Answers, Reads, each};
ghost use Rattle.geojson_io.specs.Geometries.{one, several};
ghost use Rattle.geojson_io.specs.declared.fault.ShapeWhy.{ShapeWhy};

use crate::fault::{ShapeWhy, Stop};
use json_read::Json;
use lists::ItemList;
use std::alloc::Global;

/// A kind of items in lists of coordinates. `read` says what is read of a value.
pub trait ReadItem {
    type Item: Drop;

    ghost read: { ℕ → JsonValue → Reads ShapeWhy Self.Item };

    /// Reads an item, whose positions take their room of what is left.
    fn read_item(alloc: Global, json: &Json, places: u8, left: &mut u32) -> Result<Self::Item, Stop>
        ensures answers { Answers (read places (json_value json.now)) left.old result left.new };
}

fn each<R: ReadItem>(
    alloc: Global,
    items: &[Json],
    places: u8,
    left: &mut u32,
) -> Result<ItemList<R::Item>, Stop>
    ensures answers { Answers (each (R.read places) (map json_value items.now)) left.old result left.new }
{
    let mut list = ItemList::new(alloc);
    for json in items {
        let item = R::read_item(alloc, json, places, left)?;
        list.push(item)?;
    }
    Ok(list)
}

/// The items of a list.
pub fn several<R: ReadItem>(
    alloc: Global,
    json: &Json,
    places: u8,
    left: &mut u32,
) -> Result<ItemList<R::Item>, Stop>
    ensures answers { Answers (several (R.read places) (json_value json.now)) left.old result left.new }
{
    match json {
        Json::List(list) => each::<R>(alloc, list.as_slice(), places, left),
        _ => Err(Stop::Why(ShapeWhy::BadPosition)),
    }
}

/// The item that a list is, or no item where the list is empty.
pub fn one<R: ReadItem>(
    alloc: Global,
    json: &Json,
    places: u8,
    left: &mut u32,
) -> Result<ItemList<R::Item>, Stop>
    ensures answers { Answers (one (R.read places) (json_value json.now)) left.old result left.new }
{
    let Json::List(list) = json else {
        return Err(Stop::Why(ShapeWhy::BadPosition));
    };
    let mut items = ItemList::new(alloc);
    if list.len() == 0 {
        return Ok(items);
    }
    let item = R::read_item(alloc, json, places, left)?;
    items.push(item)?;
    Ok(items)
}

use json_read::{Json, JsonFields, JsonList};
use std::alloc::{AllocError, Global};

/// The value of a case's member; `None` where it has none.
pub fn member<'a>(case: &'a Json, name: &str) -> Option<&'a Json> {
    match case {
        Json::Object(members) => members.find(name),
        _ => None,
    }
}

/// The items of a member that is a list; none where it isn't.
pub fn items<'a>(case: &'a Json, name: &str) -> &'a [Json] {
    match member(case, name) {
        Some(Json::List(list)) => list.as_slice(),
        _ => &[],
    }
}

/// The members of a member that is an object.
pub fn fields<'a>(case: &'a Json, name: &str) -> Option<&'a JsonFields> {
    match member(case, name) {
        Some(Json::Object(members)) => Some(members),
        _ => None,
    }
}

/// The text of a value; empty where it is none.
pub fn text_of(value: &Json) -> &str {
    match value {
        Json::Text(text) => text.as_str(),
        _ => "",
    }
}

/// The whole number of a value, 0 where it is none.
pub fn number_of(value: &Json) -> u32 {
    match value {
        Json::Num(numeral) => numeral.as_str().parse::<u32>().unwrap_or(0),
        _ => 0,
    }
}

/// The whole numbers of a member that is a list.
pub fn numbers(alloc: Global, case: &Json, name: &str) -> Result<Vec<u32>, AllocError> {
    let mut numbers = Vec::new(alloc);
    for item in items(case, name) {
        numbers.push(number_of(item))?;
    }
    Ok(numbers)
}

/// The bytes of a value: of a text, or of a list of numbers.
pub fn bytes_of(alloc: Global, value: &Json) -> Result<Vec<u8>, AllocError> {
    match value {
        Json::List(list) => bytes_in(alloc, list),
        _ => Vec::from_slice(alloc, text_of(value).as_bytes()),
    }
}

fn bytes_in(alloc: Global, list: &JsonList) -> Result<Vec<u8>, AllocError> {
    let mut bytes = Vec::new(alloc);
    for item in list.as_slice() {
        bytes.push(number_of(item).min(255) as u8)?;
    }
    Ok(bytes)
}

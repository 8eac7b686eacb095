use json_values::{Json, JsonList};
use std::alloc::{AllocError, Global};
use text_core::{NameList, Text};

/// The value of a group's member; `None` where it has none.
pub fn member_of<'a>(group: &'a Json, name: &str) -> Option<&'a Json> {
    match group {
        Json::Object(members) => members.find(name),
        _ => None,
    }
}

/// The text of a group's member; empty where it is none.
pub fn text_in<'a>(group: &'a Json, name: &str) -> &'a str {
    match member_of(group, name) {
        Some(Json::Text(text)) => text.as_str(),
        _ => "",
    }
}

/// The items of a group's member that is a list; none where it isn't.
pub fn list_in<'a>(group: &'a Json, name: &str) -> &'a [Json] {
    match member_of(group, name) {
        Some(Json::List(list)) => list.as_slice(),
        _ => &[],
    }
}

/// The text at a place of a case, counted from 0; empty where it is none.
pub fn text_at(case: &[Json], place: usize) -> &str {
    match case.get(place) {
        Some(Json::Text(text)) => text.as_str(),
        _ => "",
    }
}

/// The items of the list at a place of a case; none where it is no list.
pub fn list_at(case: &[Json], place: usize) -> &[Json] {
    match case.get(place) {
        Some(Json::List(list)) => list.as_slice(),
        _ => &[],
    }
}

/// The number at a place of a case; 0 where it is no whole number from 0 to 4,294,967,295.
pub fn number_at(case: &[Json], place: usize) -> u32 {
    match case.get(place) {
        Some(Json::Num(numeral)) => numeral.as_str().parse::<u32>().unwrap_or(0),
        _ => 0,
    }
}

/// The number at a place of a case, which may be negative; 0 where it is no whole number of 64 bits.
pub fn integer_at(case: &[Json], place: usize) -> i64 {
    match case.get(place) {
        Some(Json::Num(numeral)) => numeral.as_str().parse::<i64>().unwrap_or(0),
        _ => 0,
    }
}

/// The bytes at a place of a case: of a text, or of a list of numbers.
pub fn bytes_at(alloc: Global, case: &[Json], place: usize) -> Result<Vec<u8>, AllocError> {
    match case.get(place) {
        Some(Json::List(numbers)) => bytes_of(alloc, numbers),
        _ => Vec::from_slice(alloc, text_at(case, place).as_bytes()),
    }
}

fn bytes_of(alloc: Global, numbers: &JsonList) -> Result<Vec<u8>, AllocError> {
    let mut bytes = Vec::new(alloc);
    for place in 0..numbers.as_slice().len() {
        bytes.push(number_at(numbers.as_slice(), place).min(255) as u8)?;
    }
    Ok(bytes)
}

/// The texts of the list at a place of a case.
pub fn names_at(alloc: Global, case: &[Json], place: usize) -> Result<NameList, AllocError> {
    let list = list_at(case, place);
    let mut names = NameList::new(alloc);
    for i in 0..list.len() {
        names.push(Text::of(alloc, text_at(list, i))?)?;
    }
    Ok(names)
}

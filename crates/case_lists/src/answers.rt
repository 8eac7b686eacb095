use crate::items::text_at;
use json_values::{Json, JsonList};
use std::alloc::{AllocError, Global};
use std::fmt::Debug;
use text_core::Bytes;

/// The bytes of a text.
pub fn bytes_of_text(alloc: Global, text: &str) -> Result<Bytes, AllocError> {
    let mut bytes = Bytes::new(alloc);
    bytes.extend(text.as_bytes())?;
    Ok(bytes)
}

/// A value as `{:?}` prints it.
pub fn told<T: Debug>(alloc: Global, value: &T) -> Result<Bytes, AllocError> {
    let text = format!(in alloc; "{value:?}")?;
    bytes_of_text(alloc, text.as_str())
}

/// What a program answers to a call that it doesn't have.
pub fn unknown_call(alloc: Global) -> Result<Bytes, AllocError> {
    bytes_of_text(alloc, "there is no such call")
}

/// Whether an answer is what the case wants, which stands last in it. A case without that wants no answer.
pub fn is_wanted(alloc: Global, case: &[Json], answer: &Bytes) -> Result<bool, AllocError> {
    match case.last() {
        Some(Json::Text(text)) => Ok(text.as_str().as_bytes() == answer.as_slice()),
        Some(Json::List(lines)) => Ok(lines_of(alloc, lines)?.as_slice() == answer.as_slice()),
        _ => Ok(false),
    }
}

fn lines_of(alloc: Global, lines: &JsonList) -> Result<Bytes, AllocError> {
    let mut bytes = Bytes::new(alloc);
    for place in 0..lines.as_slice().len() {
        bytes.extend(text_at(lines.as_slice(), place).as_bytes())?;
        bytes.push(b'\n')?;
    }
    Ok(bytes)
}

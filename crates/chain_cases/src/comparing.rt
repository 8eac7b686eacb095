use crate::cases::{bytes_of, fields, member, number_of};
use crate::running::Ran;
use io_core::Text;
use json_read::{Json, JsonFields};
use std::alloc::{AllocError, Global};

/// The first part of what a run left that isn't as it should be.
#[derive(Drop)]
pub struct Difference {
    pub part: Text,
}

/// What differs from the case; `None` where nothing does.
pub fn difference_of(
    alloc: Global,
    case: &Json,
    ran: &Ran,
) -> Result<Option<Difference>, AllocError> {
    let part = if !has_status(case, ran.status) {
        "the status"
    } else if !is_held(alloc, member(case, "output"), ran.output.held())? {
        "the output"
    } else if !is_held(alloc, member(case, "told"), ran.messages.held())? {
        "what is told"
    } else if !are_made(alloc, fields(case, "made"), ran)? {
        "the files"
    } else {
        return Ok(None);
    };
    Ok(Some(Difference {
        part: Text::of(alloc, part)?,
    }))
}

// A case without a status matches none.
fn has_status(case: &Json, status: u8) -> bool {
    match member(case, "status") {
        Some(want) => number_of(want) == status as u32,
        None => false,
    }
}

// Nothing is wanted where the member is absent, and anything will do where it is null.
fn is_held(alloc: Global, want: Option<&Json>, held: &[u8]) -> Result<bool, AllocError> {
    match want {
        Some(Json::Null) => Ok(true),
        Some(want) => Ok(bytes_of(alloc, want)?.as_slice() == held),
        None => Ok(held.is_empty()),
    }
}

fn are_made(alloc: Global, made: Option<&JsonFields>, ran: &Ran) -> Result<bool, AllocError> {
    let Some(made) = made else {
        return Ok(true);
    };
    for i in 0..made.len() {
        if let (Some(name), Some(want)) = (made.name_at(i), made.at(i)) {
            if !is_made(alloc, want, ran.files.held(name))? {
                return Ok(false);
            }
        }
    }
    Ok(true)
}

fn is_made(alloc: Global, want: &Json, held: Option<&[u8]>) -> Result<bool, AllocError> {
    match (want, held) {
        (Json::Null, None) => Ok(true),
        (Json::Null, Some(_)) | (_, None) => Ok(false),
        (_, Some(held)) => Ok(bytes_of(alloc, want)?.as_slice() == held),
    }
}

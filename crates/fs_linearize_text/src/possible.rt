//! What the call could have replied whose return nothing explains, in words.

use crate::reason::push_cut;
use fs_calls::Reply;
use fs_linearize::Possible;
use fs_text::{Addition, write_reply};
use std::alloc::{AllocError, Global};

/// Adds a reply.
pub(crate) fn push_reply(
    alloc: Global,
    one: &Reply,
    told: &mut Addition,
) -> Result<(), AllocError> {
    let mut reply = Vec::new(alloc);
    write_reply(alloc, one, &mut reply)?;
    push_cut(&reply, told)
}

/// Adds a line that says what the call could have replied; where some replies are not named, it ends with two points.
pub(crate) fn with_possible(
    alloc: Global,
    reason: Vec<u8>,
    possible: &Possible,
) -> Result<Vec<u8>, AllocError> {
    let mut told = Addition::new(reason);
    told.push(b"\nthe call could have replied: ")?;
    let mut is_first = true;
    for one in &possible.replies {
        if !is_first {
            told.push(b", ")?;
        }
        is_first = false;
        push_reply(alloc, one, &mut told)?;
    }
    if !possible.all {
        told.push(if is_first { b".." } else { b", .." })?;
    }
    Ok(told.kept())
}

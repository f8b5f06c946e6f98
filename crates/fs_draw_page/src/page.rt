//! The whole page.

ghost use Rattle.std.specs.Prelude.{IfOk};
ghost use Rattle.fs_draw_page.specs.Pages.{IsPage};

use crate::marking::push_played;
use crate::template::{AFTER, BEFORE, BETWEEN};
use std::alloc::{AllocError, Global};

/// The page that plays a text, with a picture where scripts are off.
pub(crate) fn page_of(alloc: Global, picture: &[u8], played: &[u8]) -> Result<Vec<u8>, AllocError>
    ensures { IfOk result (λ page. IsPage picture.now played.now page.items) }
{
    let mut page = Vec::new(alloc);
    page.extend_from_slice(BEFORE)?;
    page.extend_from_slice(picture)?;
    page.extend_from_slice(BETWEEN)?;
    push_played(alloc, played, &mut page)?;
    page.extend_from_slice(AFTER)?;
    Ok(page)
}

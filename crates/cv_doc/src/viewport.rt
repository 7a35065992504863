//! The size of the viewport.

ghost use Rattle.std.specs.Prelude.{option_map};
ghost use Rattle.serde_json.specs.View.{view};
ghost use Rattle.cv_doc.specs.Members.{viewport_in};
ghost use Rattle.cv_doc.specs.Refusals.{Answers};

use crate::value::whole_up_to;
use crate::{BadDoc, DocErr};
use serde_json::Value;

const MOST_SIZE: u32 = 1000000;

/// The width and the height, 1280 and 720 where no viewport is given.
pub fn viewport(value: Option<&Value>) -> Result<(u32, u32), DocErr>
    ensures { Answers (λ size. size) (viewport_in (option_map (λ v. view v.now) value.entry)) result }
{
    let Some(value) = value else {
        return Ok((1280, 720));
    };
    let width = whole_up_to(MOST_SIZE, value.get("width"));
    let height = whole_up_to(MOST_SIZE, value.get("height"));
    match (width, height) {
        (Some(width), Some(height)) => Ok((width, height)),
        _ => Err(DocErr::Bad(BadDoc::BadViewport)),
    }
}

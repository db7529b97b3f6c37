//! The fields of a message by their name.
ghost use Rattle.up_headers.specs.Steps.{IsOnce};

use crate::header_fault::HeaderFault;
use up_message::{Field, Values, find_value};

/// The value of the field with this name, if there is one. The fault is `Repeated` if there are several.
pub(crate) fn once<'a>(fields: &'a [Field], name: &[u8]) -> Result<Option<&'a [u8]>, HeaderFault>
    ensures { IsOnce name.now fields.now result }
{
    match find_value(fields, name) {
        Values::Absent => Ok(None),
        Values::One(value) => Ok(Some(value)),
        Values::Several => Err(HeaderFault::Repeated),
    }
}

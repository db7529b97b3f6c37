//! Copies of what a request said of an upload.
ghost use Rattle.std.specs.Prelude.{◌≡◌, ◌++◌, ◌∷◌, [], IfOk};
ghost use Rattle.std.specs.Option.{option_copied};

use std::alloc::Global;
use up_events::NoMemory;
use up_headers::Pairs;
use up_message::Sequence;

/// A copy of a pair.
fn copy_pair(
    alloc: Global,
    pair: &(Sequence<u8>, Sequence<u8>),
) -> Result<(Sequence<u8>, Sequence<u8>), NoMemory>
    ensures { IfOk result (λ made. made ≡ pair.now) }
{
    Ok((
        Sequence::from_slice(alloc, pair.0.as_slice())?,
        Sequence::from_slice(alloc, pair.1.as_slice())?,
    ))
}

/// A copy of all pairs.
pub fn copy_pairs(alloc: Global, pairs: &[(Sequence<u8>, Sequence<u8>)]) -> Result<Pairs, NoMemory>
    ensures { IfOk result (λ made. made ≡ pairs.now) }
{
    let mut made = Sequence::new(alloc);
    for pair in pairs {
        made.push(copy_pair(alloc, pair)?)?;
    }
    Ok(made)
}

/// A copy of a text, if there is one.
pub fn copy_text(alloc: Global, text: Option<&[u8]>) -> Result<Option<Sequence<u8>>, NoMemory>
    ensures { IfOk result (λ made. made ≡ option_copied text.entry) }
{
    match text {
        Some(text) => Ok(Some(Sequence::from_slice(alloc, text)?)),
        None => Ok(None),
    }
}

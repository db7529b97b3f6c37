//! Why a request is not carried out, and the response to it.
ghost use Rattle.std.specs.Prelude.{◌≡◌, IfOk, IsOk};
ghost use Rattle.up_machine.specs.Refusals.{response_of};
ghost use Rattle.up_machine.specs.declared.refusal.Refusal.TheVariants.{NoMemory as out_of_memory};

use crate::answer;
use crate::reason::Reason;
use std::alloc::Global;
use thiserror::Error;
use up_events::NoMemory;
use up_message::Response;

/// Why a request is not carried out (tus 1.0.0, Core Protocol; RFC 9110, section 15). The book is then unchanged.
#[derive(Clone, Copy, Debug, PartialEq, Eq, Error)]
pub enum Refusal {
    /// The book is closed, and accepts no more changes (503).
    #[error("the server takes no change any more")]
    Closed,
    /// No upload has the id: it was never created, or it was removed (404).
    #[error("no upload has the id")]
    NotFound,
    /// Bytes are sent for a final upload, which already has all of its bytes (403; tus 1.0.0, Concatenation).
    #[error("a final upload takes no bytes")]
    FinalUpload,
    /// The bytes of a PATCH do not have the required media type (415).
    #[error("the bytes are not of the media type for bytes at an offset")]
    MediaType,
    /// A PATCH has no offset (400).
    #[error("no offset was sent")]
    BadOffset,
    /// The upload's offset differs from that of the PATCH (409).
    #[error("the upload has another offset")]
    WrongOffset,
    /// The length in a PATCH is not a number, differs from the upload's length, or is less than the number of bytes so
    /// far (400).
    #[error("the upload can't have the length that was sent")]
    BadDeclared,
    /// A PATCH declares a length above the maximum size of an upload (413).
    #[error("the length that was declared is too long")]
    DeclaredTooLong,
    /// With the bytes of a PATCH, the upload would have more bytes than its length, or than the maximum size while its
    /// length is not known (413).
    #[error("more bytes than the upload is to have")]
    TooMuch,
    /// A part of a final upload does not exist (400).
    #[error("a part is not there")]
    PartUnknown,
    /// A part of a final upload is not a partial upload (400).
    #[error("a part is not a partial upload")]
    PartNotPartial,
    /// A part of a final upload is not complete (400).
    #[error("a part is not complete")]
    PartUnfinished,
    /// Together, the parts of a final upload are longer than the maximum size of an upload (413).
    #[error("the parts are too long together")]
    SumTooLong,
    /// The request would make an upload complete, and the closures for that were not asked (409).
    #[error("nobody was asked whether the upload may be complete")]
    NotAsked,
    /// A closure refuses the request (with the status and the reason that it gave).
    #[error("a closure refuses")]
    ByHook { status: u16, reason: Reason },
    /// The id for a new upload was given before (500).
    #[error("the id was given before")]
    IdTaken,
    /// The bytes of an incomplete upload are requested (409).
    #[error("the upload is not complete")]
    Unfinished,
    /// Memory ran out (503). This is returned only if nothing else refuses the request.
    #[error("out of memory")]
    NoMemory,
}

impl From<NoMemory> for Refusal {
    ghost from_gives = { λ _ e. e ≡ out_of_memory };

    fn from(_: NoMemory) -> Self {
        Refusal::NoMemory
    }
}

/// The response to a request that is refused: its status, and a line with the number and the name of the refusal. For
/// `ByHook` it is the closure's status and a line with its reason, and for `NoMemory` an empty 503, which takes no
/// memory. `NoMemory` if memory runs out.
pub fn response_of(alloc: Global, refusal: &Refusal) -> Result<Response, NoMemory>
    ensures response { IfOk result (λ made. made ≡ response_of refusal.now) }
    ensures no_memory { refusal.now ≡ out_of_memory → IsOk result }
{
    let (status, text) = match refusal {
        Refusal::Closed => (503, "20 Closed\n"),
        Refusal::NotFound => (404, "21 NotFound\n"),
        Refusal::FinalUpload => (403, "22 FinalUpload\n"),
        Refusal::MediaType => (415, "23 MediaType\n"),
        Refusal::BadOffset => (400, "24 BadOffset\n"),
        Refusal::WrongOffset => (409, "25 WrongOffset\n"),
        Refusal::BadDeclared => (400, "36 BadDeclared\n"),
        Refusal::DeclaredTooLong => (413, "37 DeclaredTooLong\n"),
        Refusal::TooMuch => (413, "26 TooMuch\n"),
        Refusal::PartUnknown => (400, "27 PartUnknown\n"),
        Refusal::PartNotPartial => (400, "28 PartNotPartial\n"),
        Refusal::PartUnfinished => (400, "29 PartUnfinished\n"),
        Refusal::SumTooLong => (413, "30 SumTooLong\n"),
        Refusal::NotAsked => (409, "35 NotAsked\n"),
        Refusal::ByHook { status, reason } => return answer::refused_because(
            alloc, *status, reason,
        ),
        Refusal::IdTaken => (500, "32 IdTaken\n"),
        Refusal::Unfinished => (409, "33 Unfinished\n"),
        Refusal::NoMemory => return Ok(Response::out_of_memory(alloc)),
    };
    Ok(Response::refused(alloc, status, text)?)
}

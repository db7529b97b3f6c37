//! The checks that turn a message into a request.
ghost use Rattle.std.specs.Prelude.{◌≡◌, ◌≢◌, ℕ, List, IfOk};
ghost use Rattle.up_message.specs.Fields.{Field as Named};
ghost use Rattle.up_headers.specs.Rows.{first_that_holds};
ghost use Rattle.up_headers.specs.Table.{FitsWithin, IsRequestOf, IsRouted, method_rows, version_rows};
ghost use Rattle.up_headers.specs.Steps.{IsChosen, IsFirstFault, IsFound, IsStep};

use crate::creation::create_request;
use crate::fields::once;
use crate::header_fault::HeaderFault;
use crate::patch::patch_request;
use crate::place::{Place, place_of};
use crate::request::Request;
use crate::verb::{Verb, verb_of};
use std::alloc::Global;
use up_events::Id;
use up_message::{Field, Message};

/// What the message asks for (tus 1.0.0, Core protocol, Creation, Termination and Concatenation). The checks have this
/// order, and the first one that fails gives the fault:
///
/// 1. `X-HTTP-Method-Override` must not be there twice. If it is there once, its value is the method. OPTIONS is then a
///    request, whatever its target, and nothing else is checked.
/// 2. The version: it must be sent with POST, PATCH and DELETE, and may be sent with HEAD, once and as 1.0.0.
/// 3. The path of the target: `/files` or `/files/` is the creation URL, and `/files/` followed by the text of an id is
///    the URL of an upload.
/// 4. The method: POST for the creation URL; HEAD, PATCH, DELETE and GET for an upload.
/// 5. No field that the request reads may be there twice.
/// 6. For a creation: its length is a number of at most `max_size`, or it is said that the length will be declared
///    later; neither is checked if `Upload-Concat` begins with `final;`. Then `Upload-Concat` must be empty or absent,
///    `partial`, or `final;` and one or more URLs of uploads between spaces. Then the metadata is checked.
///
/// Checks 1 and 2 need no memory. From check 3 on, the result is `NoMemory` if memory runs out.
pub fn request_of(alloc: Global, message: Message, max_size: u64) -> Result<Request, HeaderFault>
    ensures answer { IsRequestOf message max_size result }
    ensures bounded { IfOk result (FitsWithin max_size) }
{
    let verb = choose(&message)?;
    match verb {
        Verb::Options => Ok(Request::Options),
        _ => route(alloc, verb, message, max_size),
    }
}

/// The method that counts, after the checks that do not need the target.
fn choose(message: &Message) -> Result<Verb, HeaderFault>
    ensures { IsChosen message.now.method message.now.fields result }
{
    let fields = message.fields.as_slice();
    let verb = match once(fields, b"x-http-method-override")? {
        Some(name) => verb_of(name),
        None => verb_of(message.method.as_str().as_bytes()),
    };
    check_version(verb, fields)?;
    Ok(verb)
}

/// The checks of the version of the protocol (tus 1.0.0, Tus-Resumable), by the method.
fn check_version(verb: Verb, fields: &[Field]) -> Result<(), HeaderFault>
    ensures { IsFirstFault result (first_that_holds (method_rows verb fields.now)) }
{
    match verb {
        Verb::Post | Verb::Patch | Verb::Delete => check_sent_version(true, fields),
        Verb::Head => check_sent_version(false, fields),
        Verb::Options | Verb::Get | Verb::Other => Ok(()),
    }
}

/// The checks of the version, which must be there if `must`.
fn check_sent_version(must: bool, fields: &[Field]) -> Result<(), HeaderFault>
    ensures { IsFirstFault result (first_that_holds (version_rows must fields.now)) }
{
    match once(fields, b"tus-resumable")? {
        Some(version) if version == b"1.0.0".as_slice() => Ok(()),
        None if !must => Ok(()),
        _ => Err(HeaderFault::Version),
    }
}

/// The upload that a target refers to; `None` for the creation URL. `NoSuchPath` for any other target.
fn upload_at(alloc: Global, target: &[u8]) -> Result<Option<Id>, HeaderFault>
    ensures { IsFound target.now result }
{
    match place_of(alloc, target)? {
        Place::Creation => Ok(None),
        Place::Upload(id) => Ok(Some(id)),
        Place::Nowhere => Err(HeaderFault::NoSuchPath),
    }
}

/// What a message asks for, depending on what its target refers to.
fn route(alloc: Global, verb: Verb, message: Message, max_size: u64) -> Result<Request, HeaderFault>
    ensures answer { IsRouted verb message max_size result }
    ensures bounded { IfOk result (FitsWithin max_size) }
{
    match upload_at(alloc, message.target.as_slice())? {
        Some(id) => at_upload(verb, id, message),
        None => at_creation(alloc, verb, message.fields.as_slice(), max_size),
    }
}

/// What a message to the creation URL asks for.
fn at_creation(
    alloc: Global,
    verb: Verb,
    fields: &[Field],
    max_size: u64,
) -> Result<Request, HeaderFault>
    ensures answer { (body : List ℕ) → IsStep verb Place.Creation fields.now body max_size result }
    ensures bounded { IfOk result (FitsWithin max_size) }
{
    match verb {
        Verb::Post => create_request(alloc, fields, max_size),
        _ => Err(HeaderFault::Method { of_upload: false }),
    }
}

/// What a message to an upload asks for with a method that sends no bytes.
fn without_bytes(verb: Verb, id: Id) -> Result<Request, HeaderFault>
    requires sends_none { verb ≢ Verb.Patch }
    ensures answer { (fields : List Named) (body : List ℕ) (max_size : ℕ)
        → IsStep verb (Place.Upload id) fields body max_size result }
    ensures bounded { (max_size : ℕ) → IfOk result (FitsWithin max_size) }
{
    match verb {
        Verb::Head => Ok(Request::Head(id)),
        Verb::Get => Ok(Request::Get(id)),
        Verb::Delete => Ok(Request::Delete(id)),
        _ => Err(HeaderFault::Method { of_upload: true }),
    }
}

/// What a message to an upload asks for.
fn at_upload(verb: Verb, id: Id, message: Message) -> Result<Request, HeaderFault>
    ensures answer { (max_size : ℕ)
        → IsStep verb (Place.Upload id) message.fields message.body max_size result }
    ensures bounded { (max_size : ℕ) → IfOk result (FitsWithin max_size) }
{
    match verb {
        Verb::Patch => patch_request(id, message),
        _ => without_bytes(verb, id),
    }
}

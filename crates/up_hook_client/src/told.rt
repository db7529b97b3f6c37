//! What a hook server is told and asked, as JSON in the form of tusd's hooks.
ghost use Rattle.std.specs.Prelude.{◌≡◌, ◌++◌, IfOk, OnOk, string_bytes};
ghost use Rattle.std.specs.Option.{option_copied, option_or};
ghost use Rattle.serde_json.specs.Data.{Data};
ghost use Rattle.serde_json.specs.Written.{IsInOrder, compact_text};
ghost use Rattle.up_machine.specs.Details.{details_concat};
ghost use Rattle.up_hook_client.specs.Told.{AreParts, AsksAbout, TellsOf, ask_begin, ask_upload};
ghost use Rattle.up_hook_client.specs.Told.{event_begin, event_upload, hook_end, point_name};

use crate::headers::headers_of;
use crate::upload::{begin_upload, end_upload};
use serde_json::{Map, Value, put};
use std::alloc::{AllocError, Global};
use up_events::{Event, Id};
use up_hooks::Origin;
use up_machine::{Ask, Details, Point};
use up_message::Sequence;

/// How many bytes a text may have at first, beside those of the request. Few texts have more.
const ROOM: usize = 512;

/// Adds the end of a text that tells of a hook.
fn add_hook(text: &mut String, hook: &str) -> Result<(), AllocError>
    ensures { OnOk result (string_bytes text.new ≡ string_bytes text.old ++ hook_end hook.now) }
{
    write!(text, "}},\"Type\":\"{hook}\"}}")?;
    Ok(())
}

/// The text of an event in JSON, up to that of its upload.
fn begin_event(alloc: Global, event: &Event) -> Result<String, AllocError>
    ensures { IfOk result (λ text. string_bytes text ≡ event_begin event.now) }
{
    let number = event.number;
    let mut text = String::with_capacity(alloc, ROOM)?;
    write!(
        text,
        "{{\"Event\":{{\"HTTPRequest\":null,\"Number\":{number},\"Upload\":"
    )?;
    Ok(text)
}

/// Adds an event's upload in JSON to a text.
fn add_event_upload(
    alloc: Global,
    text: &mut String,
    event: &Event,
    details: &Details,
) -> Result<(), AllocError>
    ensures { OnOk result ((parts : Data) × AreParts (details_concat details.now) parts
        × (string_bytes text.new ≡ string_bytes text.old
        ++ compact_text (event_upload event.now details.now parts))) }
{
    let (pairs, concat) = (details.pairs(), details.concat());
    begin_upload(text, Some(event.id), details.kind())?;
    end_upload(alloc, text, pairs, event.offset, concat, event.length)
}

/// What is told of an event of an upload that was created with these details. `AllocError` if memory runs out.
pub fn event_text(alloc: Global, event: &Event, details: &Details) -> Result<String, AllocError>
    ensures { IfOk result (λ text. TellsOf event.now details.now (string_bytes text)) }
{
    let mut text = begin_event(alloc, event)?;
    add_event_upload(alloc, &mut text, event, details)?;
    add_hook(&mut text, event.hook.name())?;
    Ok(text)
}

/// The name of the hook that is asked at a point.
fn point_name(point: Point) -> &'static str
    ensures { result.now ≡ point_name point }
{
    match point {
        Point::Create => "pre-create",
        Point::Finish => "pre-finish",
        Point::Terminate => "pre-terminate",
    }
}

/// These bytes as text; none if they are no UTF-8.
fn utf8_of(alloc: Global, bytes: &[u8]) -> Result<String, AllocError> {
    String::from_str(alloc, str::from_utf8(bytes).unwrap_or(""))
}

/// The request that a closure is asked about, with the fields of these names. A target that is no UTF-8 isn't told.
fn request_of(alloc: Global, origin: &Origin, names: &[String]) -> Result<Value, AllocError> {
    let headers = headers_of(alloc, origin.fields.as_slice(), names)?;
    let client = match &origin.client {
        Some(client) => format!(in alloc; "{client}")?,
        None => String::new(alloc),
    };
    let method = utf8_of(alloc, origin.method.as_slice())?;
    let target = utf8_of(alloc, origin.target.as_slice())?;
    let mut members = Map::new(alloc);
    put(&mut members, alloc, "Header", headers)?;
    put(&mut members, alloc, "Method", Value::String(method))?;
    put(&mut members, alloc, "RemoteAddr", Value::String(client))?;
    put(&mut members, alloc, "URI", Value::String(target))?;
    Ok(Value::Object(members))
}

/// The text in JSON of the request that a closure is asked about, with the fields of these names.
fn request_text(alloc: Global, origin: &Origin, names: &[String]) -> Result<String, AllocError>
    ensures { IfOk result (λ text. (request : Data) × IsInOrder (string_bytes text) request) }
{
    let request = request_of(alloc, origin, names)?;
    request.to_string(alloc)
}

/// The text in JSON that asks about a request, with what is told of it, up to that of the upload.
fn begin_ask(alloc: Global, request: &str) -> Result<String, AllocError>
    ensures { IfOk result (λ text. string_bytes text ≡ ask_begin request.now) }
{
    let mut text = String::with_capacity(alloc, ROOM.saturating_add(request.len()))?;
    write!(text, "{{\"Event\":{{\"HTTPRequest\":{request},\"Upload\":")?;
    Ok(text)
}

/// The bytes of a text, if there is one.
fn bytes_of(text: &Option<Sequence<u8>>) -> Option<&[u8]>
    ensures { option_copied result ≡ text.now }
{
    match text {
        Some(text) => Some(text.as_slice()),
        None => None,
    }
}

/// Adds the upload that a closure is asked about to a text, in JSON.
fn add_ask_upload(
    alloc: Global,
    text: &mut String,
    ask: &Ask,
    id: Option<Id>,
) -> Result<(), AllocError>
    ensures { OnOk result ((parts : Data) × AreParts ask.now.concat parts
        × (string_bytes text.new ≡ string_bytes text.old
        ++ compact_text (ask_upload ask.now id parts))) }
{
    let (pairs, concat) = (ask.pairs.as_slice(), bytes_of(&ask.concat));
    begin_upload(text, id, ask.kind)?;
    end_upload(alloc, text, pairs, ask.offset, concat, ask.length)
}

/// What is asked before a change, about a request of which the fields of these names are told. A new upload has the id
/// with which it will be made. `AllocError` if memory runs out.
pub fn ask_text(
    alloc: Global,
    ask: &Ask,
    origin: &Origin,
    names: &[String],
) -> Result<String, AllocError>
    ensures { IfOk result (λ text.
        AsksAbout ask.now (option_or ask.now.target origin.now.id) (string_bytes text)) }
{
    let request = request_text(alloc, origin, names)?;
    let mut text = begin_ask(alloc, request.as_str())?;
    let id = ask.target.or(origin.id);
    add_ask_upload(alloc, &mut text, ask, id)?;
    add_hook(&mut text, point_name(ask.point))?;
    Ok(text)
}

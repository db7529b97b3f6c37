//! The fields of a request, as a hook server is told of them.
use httparse::is_token;
use serde_json::{Map, Value};
use std::alloc::{AllocError, Global};
use up_message::{Field, same_name};

/// The name as Go writes it: the first letter and each letter after a dash in upper case, the others in lower case.
fn canonical_name(alloc: Global, name: &[u8]) -> Result<String, AllocError> {
    let mut made = Vec::with_capacity(alloc, name.len())?;
    let mut starts = true;
    for byte in name {
        let letter = if starts {
            byte.to_ascii_uppercase()
        } else {
            byte.to_ascii_lowercase()
        };
        made.push(letter)?;
        starts = *byte == b'-';
    }
    String::from_utf8_lossy(alloc, made.as_slice())
}

/// The values of all fields of this name, in order. What is no UTF-8 in a value is replaced.
fn values_of(alloc: Global, fields: &[Field], name: &[u8]) -> Result<Vec<Value>, AllocError> {
    let mut values = Vec::new(alloc);
    for field in fields {
        if same_name(field.0.as_slice(), name) {
            let text = String::from_utf8_lossy(alloc, field.1.as_slice())?;
            values.push(Value::String(text))?;
        }
    }
    Ok(values)
}

/// The names of fields in a text, which have commas between and may have spaces around them. `None` if one can't be the
/// name of a field (RFC 9110, section 5.6.2). `AllocError` if memory runs out.
pub fn field_names(alloc: Global, text: &str) -> Result<Option<Vec<String>>, AllocError> {
    let mut names = Vec::new(alloc);
    for name in text.split(',') {
        let name = name.trim();
        if !is_token(name.as_bytes()) {
            return Ok(None);
        }
        names.push(String::from_str(alloc, name)?)?;
    }
    Ok(Some(names))
}

/// The fields of these names, as an object: each name once, with a list of its values. A name that no field has is left
/// out.
pub fn headers_of(alloc: Global, fields: &[Field], names: &[String]) -> Result<Value, AllocError> {
    let mut members = Map::new(alloc);
    for name in names {
        let values = values_of(alloc, fields, name.as_bytes())?;
        if !values.is_empty() {
            let key = canonical_name(alloc, name.as_bytes())?;
            serde_json::put(&mut members, alloc, key.as_str(), Value::Array(values))?;
        }
    }
    Ok(Value::Object(members))
}

//! Responses and their bytes as text, with Rust's escapes.
use crate::text::escaped::{push_escaped, push_pair};
use crate::text::pieces::bytes_of;
use std::alloc::AllocError;
use std::fmt::Write;
use up_message::{Field, Piece, Response, Run, Segments};

/// Adds the pieces, one after another.
pub fn push_pieces(words: &mut String, pieces: &[Piece]) -> Result<(), AllocError> {
    for piece in pieces {
        push_escaped(words, bytes_of(piece))?;
    }
    Ok(())
}

/// Adds the runs, one after another.
pub fn push_runs(words: &mut String, runs: &[Run]) -> Result<(), AllocError> {
    for run in runs {
        push_pieces(words, run.pieces())?;
    }
    Ok(())
}

/// Adds all bytes of a body in brackets.
pub fn push_body(words: &mut String, body: &Segments) -> Result<(), AllocError> {
    let (front, last) = body.runs();
    words.push_str("[")?;
    push_runs(words, front)?;
    push_pieces(words, last.pieces())?;
    words.push_str("]")
}

/// Adds each field or pair as "name: value; ".
pub fn push_fields(words: &mut String, fields: &[Field]) -> Result<(), AllocError> {
    for (name, value) in fields {
        push_pair(words, name.as_slice(), ": ", value.as_slice())?;
        words.push_str("; ")?;
    }
    Ok(())
}

/// Adds a response as "200 Upload-Offset: 0; Upload-Length: 5; [abc]": status, fields in order, and body.
pub fn push_response(words: &mut String, response: &Response) -> Result<(), AllocError> {
    write!(words, "{} ", response.status)?;
    push_fields(words, response.fields.as_slice())?;
    push_body(words, &response.body)
}

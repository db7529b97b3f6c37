//! Laws about the definitions.
ghost use Rattle.std.specs.Prelude.{ℕ};
ghost use Rattle.up_wire.specs.OneAnswer.{HasOneAnswer, ReadingsAgree};

/// A message is determined by its bytes. For one stream of bytes that ends in one way, at most one of these results is
/// possible: a message, an incomplete message, one fault of the input, or the end of the input. It does not matter in
/// what pieces the bytes arrive, or how many of them are taken before a fault is seen. Two calls that return a message
/// also end it at the same byte. Running out of memory and a failed write do not depend on the input, and nothing is
/// said about them.
///
/// In these cases, and in no others, either of two results is possible:
/// - `HeadTooLarge`, or `BadHead` or `ReadFailed`: a head that is malformed or breaks off has more than 64 fields.
/// - `HeadTooLarge` or `BadHead`: no continuation of the first 16,384 bytes is a head, and they end inside the target.
/// - `ReadFailed` or `BadHead`: a read fails inside the target, and no continuation of the bytes before it is a head.
/// - An incomplete message or `BadFraming`: the stream breaks off inside a chunk line or trailers that no continuation
///   completes.
///
/// So two calls of `read_message` that find the same bytes return the same result if no read fails, apart from these
/// cases.
pub fn an_input_has_one_answer()
    ensures answers { (limit : ℕ) → HasOneAnswer limit }
    ensures readings { (limit : ℕ) → ReadingsAgree limit }
{}

//! What a conversation reads, writes and draws ids from.

use std::net::SocketAddr;

/// What one conversation is held with: its messages are read from `source`, its answers are written to `sink`, and its
/// new uploads get their ids from `ids`. Closures that see requests see the address of `client`, if it is known.
#[derive(Drop)]
pub struct Exchange<'a, I, R, W> {
    pub ids: &'a mut I,
    pub source: &'a mut R,
    pub sink: &'a mut W,
    pub client: Option<SocketAddr>,
}

//! What the connections of a server share.
use crate::connection_limit::ConnectionLimit;
use crate::ending::Ending;
use crate::patience::Patience;
use crate::pool::Pool;
use crate::seats::Seats;
use crate::watch::Watch;
use std::sync::Mutex;
use up_dispatch::{Board, Naming};

/// What the connections of a server share, besides its closures. These are a parameter of their own: a struct with a
/// ghost field over the bound of a parameter can't also contain a `dyn`.
#[derive(Drop)]
pub struct ConnectionContext<'a, B: Naming, I> {
    pub board: &'a Board<B>,
    pub limit: ConnectionLimit,
    pub pool: Pool,
    pub patience: Patience,
    pub watch: Option<&'a Watch>,
    pub ending: Option<&'a Ending>,
    pub ids: Mutex<I>,
    pub seats: Seats<B>,
}

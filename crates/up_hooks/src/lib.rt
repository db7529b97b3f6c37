//! What operators attach to the life of an upload: closures that are asked before it is created, completed or removed,
//! and post-hooks that are handed every event.
#![tactic(auto)]

mod courier;
mod delivery;
mod in_turn;
mod links;
mod origin;
mod post_hook;
mod pre_hook;
mod pre_hooks;
mod recorder;
mod recorders;
mod request_hook;
mod teller;
mod tellers;

pub use courier::Courier;
pub use delivery::Delivery;
pub use in_turn::InTurn;
pub use links::Links;
pub use origin::Origin;
pub use post_hook::{Outcome, PostHook};
pub use pre_hook::{Judge, PreHook};
pub use pre_hooks::PreHooks;
pub use recorder::Recorder;
pub use recorders::new_recorders;
pub use request_hook::{RequestHook, RequestJudge};
pub use teller::Teller;
pub use tellers::new_tellers;

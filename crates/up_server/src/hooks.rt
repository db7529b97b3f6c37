//! The hooks of a server.
use up_hooks::PreHooks;

/// What a server calls: closures that it asks before an upload is made, completed or removed, and a post-hook for each
/// lane, which is handed the events of the lane.
#[derive(Drop)]
pub struct Hooks<H> {
    pub pre: PreHooks,
    pub post: Vec<H>,
}

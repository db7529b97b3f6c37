//! Which hooks a hook server is asked or told of.
ghost use Rattle.std.specs.Prelude.{◌≡◌, IsTrue, true};
ghost use Rattle.up_hook_client.specs.Chosen.{is_asked_at, is_told_of};

use up_events::Hook;
use up_machine::Point;

/// Which hooks a hook server is asked or told of.
#[derive(Clone, Copy)]
pub struct Enabled {
    pub pre_create: bool,
    pub pre_finish: bool,
    pub pre_terminate: bool,
    pub post_create: bool,
    pub post_receive: bool,
    pub post_finish: bool,
    pub post_terminate: bool,
}

impl Enabled {
    /// All hooks if `enabled`, else none.
    fn each(enabled: bool) -> Self
        ensures asked { (point : _) → is_asked_at result point ≡ enabled }
        ensures told { (hook : _) → is_told_of result hook ≡ enabled }
    {
        Enabled {
            pre_create: enabled,
            pre_finish: enabled,
            pre_terminate: enabled,
            post_create: enabled,
            post_receive: enabled,
            post_finish: enabled,
            post_terminate: enabled,
        }
    }

    /// All hooks.
    pub fn all() -> Self
        ensures asked { (point : _) → is_asked_at result point ≡ true }
        ensures told { (hook : _) → is_told_of result hook ≡ true }
    {
        Enabled::each(true)
    }

    /// Enables the hook of this name. Returns whether there is one.
    fn enable(&mut self, name: &str) -> bool {
        match name {
            "pre-create" => self.pre_create = true,
            "pre-finish" => self.pre_finish = true,
            "pre-terminate" => self.pre_terminate = true,
            "post-create" => self.post_create = true,
            "post-receive" => self.post_receive = true,
            "post-finish" => self.post_finish = true,
            "post-terminate" => self.post_terminate = true,
            _ => return false,
        }
        true
    }

    /// The hooks of these names, which have commas between and may have spaces around them. `None` if one is no name of
    /// a hook.
    pub fn parse(names: &str) -> Option<Self> {
        let mut enabled = Enabled::each(false);
        for name in names.split(',') {
            if !enabled.enable(name.trim()) {
                return None;
            }
        }
        Some(enabled)
    }

    /// Whether the server is asked at this point.
    pub fn asks_at(self, point: Point) -> bool
        ensures { result ≡ is_asked_at self point }
    {
        match point {
            Point::Create => self.pre_create,
            Point::Finish => self.pre_finish,
            Point::Terminate => self.pre_terminate,
        }
    }

    /// Whether the server is told of any events.
    pub fn tells_of_any(self) -> bool
        ensures { (hook : _) → is_told_of self hook ≡ true → IsTrue result }
    {
        self.post_create || self.post_receive || self.post_finish || self.post_terminate
    }

    /// Whether the server is told of the events of this hook.
    pub fn tells_of(self, hook: Hook) -> bool
        ensures { result ≡ is_told_of self hook }
    {
        match hook {
            Hook::Create => self.post_create,
            Hook::Receive => self.post_receive,
            Hook::Finish => self.post_finish,
            Hook::Terminate => self.post_terminate,
        }
    }
}

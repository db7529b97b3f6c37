//! Values to be dropped later.
ghost use Rattle.std.specs.Prelude.{◌≡◌, option_map};
ghost use Rattle.up_machine.specs.Details.{details_of};

use crate::upload::Upload;
use std::marker::Model;
use up_events::Id;
use up_message::Piece;

/// What a commit leaves over: parts of an upload that was removed, or the body of a PATCH. The owner drops it when
/// nobody waits for that. Contracts do not describe its content.
#[derive(Drop)]
pub struct Remains {
    upload: Option<Upload>,
    body: Option<Piece>,
}

impl Model for Remains {
    ghost Value = { Unit {0} };

    ghost view = { λ a. tt };
}

impl Remains {
    /// Nothing. Takes no memory.
    pub fn new() -> Self {
        Remains {
            upload: None,
            body: None,
        }
    }

    /// Takes an upload that was removed, if there was one.
    pub(crate) fn take_upload(&mut self, upload: Option<Upload>) {
        self.upload = upload;
    }

    /// Takes the body of a PATCH, which the upload shares if it kept it.
    pub(crate) fn take_body(&mut self, body: Piece) {
        self.body = Some(body);
    }

    /// Drops the values.
    pub fn release(self) {}
}

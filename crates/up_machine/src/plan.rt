//! The plan of a request before it is carried out, and the result of one that was.
use crate::ask::Ask;
use crate::reason::Reason;
use up_events::Accepted;
use up_message::Response;

/// The plan of a request that nothing refuses.
#[derive(Drop)]
pub enum Plan {
    /// The request changes nothing, and this is its response.
    Answer(Response),
    /// The closures must be asked this, and then the request must be committed.
    Ask(Ask),
    /// The closures must be asked the first question and, if none refuses it, the second. Then the request must be
    /// committed.
    AskBoth(Ask, Ask),
    /// The request must be committed.
    Ready,
}

/// What the closures said about a request before it is committed.
#[derive(Clone, Copy, Debug, PartialEq, Eq)]
pub enum Asked {
    /// Nobody was asked, which counts as allowed. A request that would make an upload complete is refused.
    Skipped,
    /// No closure refuses. A request that would make an upload complete is refused, since nobody was asked about that.
    Allowed,
    /// No closure refuses, and none refuses that the upload is complete.
    AllowedFinish,
    /// A closure refuses, with this status and reason.
    Refused { status: u16, reason: Reason },
}

impl Asked {
    ghost use Rattle.std.specs.Prelude.{◌≡◌};
    ghost use Rattle.up_machine.specs.Decision.{is_refusal};

    /// Whether a closure refuses.
    pub fn is_refusal(&self) -> bool
        ensures { result ≡ is_refusal self.now }
    {
        matches!(self, Asked::Refused { .. })
    }
}

/// The result of a request that was carried out.
#[derive(Drop)]
pub struct Done {
    pub response: Response,
    /// The change, if there was one.
    pub change: Option<Accepted>,
}

impl Done {
    ghost use Rattle.std.specs.Prelude.{◌≡◌, None};

    /// The result of a request that changes nothing.
    pub fn unchanged(response: Response) -> Self
        ensures { result ≡ record { response = response; change = None } }
    {
        Done {
            response,
            change: None,
        }
    }
}

//! The entries of a log.
ghost use Rattle.std.specs.Prelude.{◌≡◌, None};
ghost use Rattle.up_headers.specs.declared.request.Request.TheVariants.{Options};
ghost use Rattle.up_log.specs.Held.{place_back};

use up_events::Id;
use up_headers::Request;
use up_message::Found;
use up_places::Position;

/// What the closures said about a request that they do not refuse. A refused request changes nothing, so it is not
/// logged.
#[derive(Clone, Copy, PartialEq, Eq)]
pub enum Consent {
    /// Nobody was asked.
    Skipped,
    /// No closure refuses.
    Allowed,
    /// No closure refuses, and none refuses that the upload is complete.
    AllowedFinish,
}

/// Everything that a commit depends on, apart from the book: the request, the id for a new upload, and what the
/// closures said.
#[derive(Drop)]
pub struct Entry {
    pub id: Id,
    pub consent: Consent,
    /// Where the bytes of a PATCH begin in data files. `None` if the entry has them, and for other requests.
    pub place: Option<Position>,
    pub request: Request,
}

impl Entry {
    /// An entry that asks for nothing, with this id.
    pub fn nothing(id: Id) -> Entry
        ensures { result ≡ record {
          id = id;
          consent = Consent.Skipped;
          place = None;
          request = Options;
        } }
    {
        Entry {
            id,
            consent: Consent::Skipped,
            place: None,
            request: Request::Options,
        }
    }
}

/// Where the bytes of a PATCH begin in data files. `None` if they are in memory, and for other requests.
pub fn place_of(request: &Request) -> Option<Position>
    ensures { place_back result request.now ≡ result }
{
    match request {
        Request::Patch(sent) => match sent.bytes.found() {
            Found::InMemory(_) => None,
            Found::InFile(place) => Some(place.start()),
        },
        _ => None,
    }
}

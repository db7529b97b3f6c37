//! Events on their way to a hook server.
ghost use Rattle.std.specs.Prelude.{◌≡◌, [], IfOk, IfSome};
ghost use Rattle.up_hook_client.specs.Answers.{asked_of};
ghost use Rattle.up_hook_client.specs.Posts.{acknowledged_by, enabled_by};
ghost use Rattle.up_hook_client.specs.Told.{TellsOf};
ghost use Rattle.up_machine.specs.Details.{details_id};

use crate::acknowledged::Acknowledged;
use crate::client::HookClient;
use crate::connection::{Answer, Connection};
use crate::heard::is_acknowledgement;
use crate::no_answer::NoAnswer;
use crate::told::event_text;
use std::marker::Sync;
use std::net::{Net, TcpListener, TcpStream};
use std::sync::atomic::AtomicU64;
use std::time::Clock;
use up_events::Event;
use up_hooks::Delivery;
use up_machine::Details;

/// How many times an event is sent, with the pauses of its lane between, before standard error says why that fails: over
/// a second.
const QUIET_FAILURES: u32 = 5;

/// The way of a lane's events to a hook server. An event of a hook that the server isn't told of counts as acknowledged.
#[derive(Drop)]
pub struct Post<'a, R> {
    client: &'a HookClient<R>,
    /// When the run ends, in milliseconds of the system's clock. 0 while nobody knows.
    end: Option<&'a AtomicU64>,
    kept: Option<Connection>,
    acknowledged: Acknowledged,
    /// What the upload of the next event was created with, if that is known.
    details: Option<Details>,
    /// How many times in a row the server has not acknowledged the event.
    failures: u32,
}

impl<'a, R> Post<'a, R> {
    /// Events to this server, of which none was sent yet. No answer is waited for after the end of the run, in
    /// milliseconds of the system's clock, which is 0 while nobody knows it.
    pub fn new(client: &'a HookClient<R>, end: Option<&'a AtomicU64>) -> Self
        ensures enabled { enabled_by result ≡ client.now.enabled }
        ensures none { acknowledged_by result ≡ [] }
    {
        Post {
            client,
            end,
            kept: None,
            acknowledged: Acknowledged::none(client.enabled),
            details: None,
            failures: 0,
        }
    }
}

impl<R: Net<Listener = TcpListener, Stream = TcpStream> + Clock + Eprint + AllocGlobal> Post<
    '_,
    R,
> {
    /// What the event's upload was created with, if that is known.
    fn details_of(&mut self, event: &Event) -> Option<Details>
        ensures own { IfSome result (λ details. details_id details ≡ event.now.id) }
        ensures enabled { enabled_by self.new ≡ enabled_by self.old }
        ensures same { acknowledged_by self.new ≡ acknowledged_by self.old }
    {
        self.details
            .take()
            .filter(|details| details.id() == event.id)
    }

    /// Sends the event of an upload that was created with these details, and waits for the answer.
    fn send(&mut self, event: &Event, details: &Details) -> Result<Answer, NoAnswer>
        ensures enabled { enabled_by self.new ≡ enabled_by self.old }
        ensures same { acknowledged_by self.new ≡ acknowledged_by self.old }
        ensures told { IfOk result (λ answer. TellsOf event.now details.now (asked_of answer)) }
    {
        let text = event_text(self.client.rt.alloc(), event, details)?;
        self.client.exchange(&mut self.kept, &text, self.end)
    }

    /// Notes that the server hasn't acknowledged the event. Says so on standard error, once, after several tries.
    fn note_failure(&mut self, event: &Event, came: &Result<Answer, NoAnswer>)
        ensures { acknowledged_by self.new ≡ acknowledged_by self.old }
    {
        self.failures = self.failures.saturating_add(1);
        if self.failures != QUIET_FAILURES {
            return;
        }
        let (id, hook) = (event.id, event.hook.name());
        let _ = match came {
            Ok(answer) => {
                let status = answer.status();
                eprintln!(&self.client.rt;
                    "up_server: the hook answers {status} to {hook} of {id}, which is sent again"
                )
            }
            Err(why) => eprintln!(&self.client.rt;
                "up_server: {hook} of {id} is sent again: {why}"
            ),
        };
    }
}

impl<R> Delivery for Post<'_, R>
where
    R: Net<Listener = TcpListener, Stream = TcpStream> + Clock + Eprint + AllocGlobal + Sync,
{
    ghost acknowledged = { acknowledged_by };

    fn needs_details(&self) -> bool {
        self.client.enabled.tells_of_any()
    }

    fn asks_about(&self, event: &Event) -> bool {
        self.acknowledged.takes(event) && self.details.is_none()
    }

    fn learn(&mut self, details: Details) {
        self.details = Some(details);
    }

    fn deliver(&mut self, event: &Event) -> bool {
        if !self.acknowledged.takes(event) {
            self.acknowledged.pass(event);
            return true;
        }
        let Some(details) = self.details_of(event) else {
            self.note_failure(event, &Err(NoAnswer::Memory));
            return false;
        };
        let came = self.send(event, &details);
        if let Ok(answer) = &came
            && is_acknowledgement(answer)
        {
            self.acknowledged.add(event, &details, answer);
            self.failures = 0;
            return true;
        }
        self.details = Some(details);
        self.note_failure(event, &came);
        false
    }
}

//! A hook server, as it is asked and told.
ghost use Rattle.std.specs.Prelude.{◌≡◌, IfOk, IfSome, string_bytes};
ghost use Rattle.std.specs.Option.{option_or};
ghost use Rattle.up_hook_client.specs.Answers.{asked_of};
ghost use Rattle.up_hook_client.specs.Judgements.{answer_of, asked_by, point_of};
ghost use Rattle.up_hook_client.specs.Told.{AsksAbout};

use crate::connection::{Answer, Connection};
use crate::deadline::Deadline;
use crate::enabled::Enabled;
use crate::heard::Judged;
use crate::no_answer::NoAnswer;
use crate::server::HookServer;
use crate::told::ask_text;
use std::net::{Net, TcpListener, TcpStream};
use std::sync::Arc;
use std::sync::atomic::{AtomicBool, AtomicU64, Ordering};
use std::time::{Clock, Duration};
use up_hooks::Origin;
use up_machine::Ask;

/// A hook server, and how it is reached.
#[derive(Clone, Drop)]
pub struct HookClient<R> {
    /// By what connections to it are opened.
    pub rt: R,
    pub server: HookServer,
    /// How many seconds it has for an answer, connecting included.
    pub timeout: u64,
    /// The names of the fields of a client's request that it is told.
    pub forwarded: Vec<String>,
    /// The hooks that it is asked or told of.
    pub enabled: Enabled,
    /// Whether standard error says already that something in its answers is ignored.
    pub has_remarked: Arc<AtomicBool>,
}

impl<R: Net<Listener = TcpListener, Stream = TcpStream> + Clock + AllocGlobal> HookClient<R> {
    /// Sends a text over the kept connection, if there is one. `None` if there is none, or if the server has closed it
    /// while it was idle, so that a new one is needed.
    fn exchange_again(
        &self,
        kept: &mut Option<Connection>,
        text: &String,
        deadline: Deadline<'_>,
    ) -> Option<Result<Answer, NoAnswer>>
        ensures asked { IfSome result (λ came. IfOk came
            (λ answer. asked_of answer ≡ string_bytes text.now)) }
    {
        let connection = kept.as_mut()?;
        let came = connection.ask(&self.rt, &self.server, text, deadline);
        let has_begun = connection.has_begun();
        if came.is_err() || !connection.is_idle() {
            *kept = None;
        }
        match came {
            Ok(_) | Err(NoAnswer::Late) => Some(came),
            Err(_) if has_begun => Some(came),
            Err(_) => None,
        }
    }

    /// Sends a text in JSON, over the kept connection if there is one that the server hasn't closed meanwhile, and else
    /// over a new one. Waits for the answer as long as the server has time, or until the run is over, whose end is in
    /// milliseconds of the system's clock, and 0 while nobody knows it. The connection is kept if it can be used again.
    pub fn exchange(
        &self,
        kept: &mut Option<Connection>,
        text: &String,
        end: Option<&AtomicU64>,
    ) -> Result<Answer, NoAnswer>
        ensures asked { IfOk result (λ answer. asked_of answer ≡ string_bytes text.now) }
    {
        let deadline = Deadline::after(&self.rt, Duration::from_secs(self.timeout), end)?;
        if let Some(came) = self.exchange_again(kept, text, deadline) {
            return came;
        }
        let mut connection = Connection::open(&self.rt, &self.server, deadline)?;
        let answer = connection.ask(&self.rt, &self.server, text, deadline)?;
        *kept = Some(connection).filter(Connection::is_idle);
        Ok(answer)
    }
}

impl<R: Net<Listener = TcpListener, Stream = TcpStream> + Clock + Eprint + AllocGlobal> HookClient<
    R,
> {
    /// Says on standard error that something in answers is ignored, unless it was said.
    fn remark(&self) {
        if self.has_remarked.swap(true, Ordering::SeqCst) {
            return;
        }
        let _ = eprintln!(&self.rt;
            "up_server: the hook says StopUpload or HTTPResponse without a rejection, which is ignored"
        );
    }

    /// Asks whether a request passes. If the server gives no answer, it doesn't. If the server isn't asked at this point,
    /// it does. Uses the connection that `origin` lends, and leaves it there for the next question.
    pub fn judge(&self, ask: &Ask, origin: &Origin) -> Judged
        ensures enabled { asked_by result ≡ self.now.enabled }
        ensures point { point_of result ≡ ask.now.point }
        ensures asked { IfSome (answer_of result) (λ answer.
            AsksAbout ask.now (option_or ask.now.target origin.now.id) (asked_of answer)) }
    {
        if !self.enabled.asks_at(ask.point) {
            return Judged::unasked(self.enabled, ask.point);
        }
        let alloc = self.rt.alloc();
        let Ok(text) = ask_text(alloc, ask, origin, self.forwarded.as_slice()) else {
            return Judged::unanswered(self.enabled, ask.point);
        };
        let mut kept = origin
            .take()
            .map(|stream| Connection::over(&self.rt, stream));
        let came = self.exchange(&mut kept, &text, None);
        origin.leave(kept.map(Connection::into_stream));
        match came {
            Ok(answer) => {
                let judged = Judged::of(alloc, self.enabled, ask, origin, answer);
                if judged.ignores_something() {
                    self.remark();
                }
                judged
            }
            Err(_) => Judged::unanswered(self.enabled, ask.point),
        }
    }
}

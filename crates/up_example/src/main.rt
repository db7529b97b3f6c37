//! A server that wants a file name for each upload, takes no programs and no more than 16 bytes of one, and has each
//! one scanned that is complete.
#![tactic(auto)]

ghost use Rattle.std.specs.Prelude.{IsTrue};
ghost use Rattle.up_hooks.specs.Recorded.{has_code};
ghost use Rattle.up_hooks.specs.Verdicts.{is_allowed_verdict};

use std::io::{self, BufReader, BufWriter};
use up_events::{Event, Hook};
use up_hooks::{Outcome, PreHook, PreHooks, new_recorders};
use up_machine::{Ask, Point, Verdict};
use up_server::{Hooks, finishes_at_most, needs_key, refuse, replay};
use up_wire::{Input, Output};
use up_words::Settings;

/// Has an upload scanned, and tells of it on standard error. This scanner takes no more than 8 bytes.
fn scan(rt: &impl Eprint, upload: &Event) -> Outcome
    ensures { IsTrue (has_code result) }
{
    if upload.offset > 8 {
        return Outcome::Failed(1);
    }
    match eprintln!(rt; "{} scanned", upload.id) {
        Ok(()) => Outcome::Done,
        Err(_) => Outcome::Failed(2),
    }
}

fn main(rt: HostRuntime) -> anyhow::Result<()> {
    let named = |ask: &Ask| -> Verdict
        ensures { IsTrue (is_allowed_verdict result) }
    { needs_key(ask, b"filename") };
    let mut hooks = Vec::new(rt.alloc());
    hooks.push(PreHook::new(Point::Create, Box::new(rt.alloc(), named)?))?;
    let no_program = |ask: &Ask| -> Verdict
        ensures { IsTrue (is_allowed_verdict result) }
    {
        match ask.value(b"filename") {
            Some(name) if name.ends_with(b".exe") => refuse(422, b"programs are not taken"),
            _ => Verdict::Allow,
        }
    };
    hooks.push(PreHook::new(Point::Create, Box::new(rt.alloc(), no_program)?))?;
    let small = |ask: &Ask| -> Verdict
        ensures { IsTrue (is_allowed_verdict result) }
    { finishes_at_most(ask, 16) };
    hooks.push(PreHook::new(Point::Finish, Box::new(rt.alloc(), small)?))?;

    let told = &rt;
    let scanned = move |event: &Event| -> Outcome
        ensures { IsTrue (has_code result) }
    {
        match event.hook {
            Hook::Finish => scan(told, event),
            _ => Outcome::Done,
        }
    };
    let settings = Settings::default();
    let recorders = new_recorders(rt.alloc(), settings.lanes, scanned)?;

    let mut source = Input::new(BufReader::new(rt.alloc(), rt.reader())?);
    let mut sink = Output::new(BufWriter::new(rt.alloc(), io::writer(&rt))?);
    let hooks = Hooks {
        pre: PreHooks::new(hooks),
        post: recorders,
    };
    replay(&rt, rt.alloc(), hooks, &settings, &mut source, &mut sink)?;
    Ok(())
}

//! What a report says about a post-hook.
ghost use Rattle.std.specs.Prelude.{◌≡◌, OnErr};
ghost use Rattle.up_wire.specs.Device.{GaveUp};
ghost use Rattle.up_wire.specs.Response.{Writes};

use crate::report::write_events;
use sqlite_disk::Disk;
use std::marker::Send;
use up_events::Event;
use up_handed::{Continued, Endings, Noting, Permission, Withheld};
use up_hooks::{Courier, Delivery, Outcome, PostHook, Recorder, Teller};
use up_wire::{Sink, WriteFailed};

/// A post-hook about which a report says something.
pub trait Shown: PostHook {
    ghost use Rattle.std.specs.Prelude.{ℕ, List};

    /// How many events it was handed, as far as it counts them.
    ghost count: { Self → ℕ };

    /// The text about it, which follows the line of its lane.
    ghost text: { Self → List ℕ };

    /// How many events it was handed, as far as it counts them.
    fn count_handed(&self) -> u64
        ensures { result ≡ count self.now };

    /// Writes the text about it. The error is that a write gave up on the sink.
    fn write_text<W: Sink>(&self, sink: &mut W) -> Result<(), WriteFailed>
        ensures written { Writes (W.device sink.old).bytes (W.device sink.new).bytes
            (text self.now) result }
        ensures failed { OnErr result
            (GaveUp (W.device sink.new) (W.device sink.new).interruptions) };
}

impl<F: Fn(&Event) -> Outcome + Send> Shown for Recorder<F> {
    ghost use Rattle.up_server.specs.ReportText.{count_kept, events_text};

    ghost count = { count_kept };

    ghost text = { events_text };

    fn count_handed(&self) -> u64 {
        self.list().len() as u64
    }

    fn write_text<W: Sink>(&self, sink: &mut W) -> Result<(), WriteFailed> {
        write_events(sink, self.list())
    }
}

impl<F: Fn(&Event) -> Outcome + Send> Shown for Teller<F> {
    ghost use Rattle.std.specs.Prelude.{◌-◌, ◌^◌, [], length, min};

    ghost count = { λ t. min (length (⟦<Teller<F> as PostHook>⟧.handed t)) (2 ^ 64 - 1) };

    ghost text = { λ _. [] };

    fn count_handed(&self) -> u64 {
        self.count()
    }

    fn write_text<W: Sink>(&self, _sink: &mut W) -> Result<(), WriteFailed> {
        Ok(())
    }
}

impl<D: Delivery + Send> Shown for Courier<D> {
    ghost use Rattle.std.specs.Prelude.{◌-◌, ◌^◌, [], length, min};
    ghost use Rattle.up_hooks.specs.Couriers.{delivery_of};

    // How many of its events were acknowledged.
    ghost count = { λ c. min (length (D.acknowledged (delivery_of c))) (2 ^ 64 - 1) };

    ghost text = { λ _. [] };

    fn count_handed(&self) -> u64 {
        self.count()
    }

    fn write_text<W: Sink>(&self, _sink: &mut W) -> Result<(), WriteFailed> {
        Ok(())
    }
}

impl<H: Shown, D: Disk + Send> Shown for Continued<H, D> {
    ghost use Rattle.up_handed.specs.Continues.{handed_of, inner_hook};
    ghost use Rattle.up_handed.specs.Counts.{count_of};

    // How many events all runs have handed over, as the disk counts them.
    ghost count = { λ c. count_of (handed_of c) };

    ghost text = { λ c. H.text (inner_hook c) };

    fn count_handed(&self) -> u64 {
        self.count()
    }

    fn write_text<W: Sink>(&self, sink: &mut W) -> Result<(), WriteFailed> {
        self.hook().write_text(sink)
    }
}

impl<H: Shown, E: Endings> Shown for Noting<H, E> {
    ghost use Rattle.up_handed.specs.Notes.{noting_hook};

    ghost count = { λ n. H.count (noting_hook n) };

    ghost text = { λ n. H.text (noting_hook n) };

    fn count_handed(&self) -> u64 {
        self.hook().count_handed()
    }

    fn write_text<W: Sink>(&self, sink: &mut W) -> Result<(), WriteFailed> {
        self.hook().write_text(sink)
    }
}

impl<H: Shown, P: Permission> Shown for Withheld<H, P> {
    ghost use Rattle.up_handed.specs.Withholds.{withheld_hook};

    ghost count = { λ w. H.count (withheld_hook w) };

    ghost text = { λ w. H.text (withheld_hook w) };

    fn count_handed(&self) -> u64 {
        self.hook().count_handed()
    }

    fn write_text<W: Sink>(&self, sink: &mut W) -> Result<(), WriteFailed> {
        self.hook().write_text(sink)
    }
}

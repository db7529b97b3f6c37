//! Events on their way to a hook server, and then into lines.
ghost use Rattle.std.specs.Prelude.{◌≡◌, ◌+◌, [], All, IfOk, OnOk, length};

use std::alloc::Global;
use std::io::Write;
use std::marker::{Send, Sync};
use std::net::{Net, TcpListener, TcpStream};
use std::sync::Wait;
use std::sync::atomic::AtomicU64;
use std::time::Clock;
use up_events::NoMemory;
use up_hook_client::{HookClient, Post};
use up_hooks::{Courier, Delivery, InTurn, PostHook};
use up_server::{EventLines, LineDelivery};

/// The way of an event: to the hook server, and then into a line, if there are lines.
pub type Told<'a, C, R, W> = InTurn<Post<'a, C>, LineDelivery<'a, R, W>>;

/// Adds a courier over this delivery, by which nothing was acknowledged. `NoMemory` if memory runs out.
fn add_courier<D: Delivery + Drop + Send>(
    made: &mut Vec<Courier<D>>,
    delivery: D,
) -> Result<(), NoMemory>
    requires none { D.acknowledged delivery ≡ [] }
    requires new { All (λ courier. ⟦<Courier<D> as PostHook>⟧.is_sound courier
        × (⟦<Courier<D> as PostHook>⟧.handed courier ≡ [])) made.old.items }
    ensures one_more { OnOk result (length made.new.items ≡ length made.old.items + 1) }
    ensures new { OnOk result (All (λ courier. ⟦<Courier<D> as PostHook>⟧.is_sound courier
        × (⟦<Courier<D> as PostHook>⟧.handed courier ≡ [])) made.new.items) }
{
    made.push(Courier::new(delivery))?;
    Ok(())
}

/// A courier for each lane, which was handed nothing. `end` is when the run ends, in milliseconds of the system's clock,
/// and 0 while nobody knows. `NoMemory` if memory runs out.
pub fn told_couriers<
    'a,
    C: Net<Listener = TcpListener, Stream = TcpStream> + Clock + Eprint + AllocGlobal + Sync,
    R: Eprint + Wait + Sync,
    W: Write + Drop + Send,
>(
    rt: &'a R,
    alloc: Global,
    lanes: u64,
    client: &'a HookClient<C>,
    lines: Option<&'a EventLines<W>>,
    end: Option<&'a AtomicU64>,
) -> Result<Vec<Courier<Told<'a, C, R, W>>>, NoMemory>
    ensures one_for_each { IfOk result (λ made. length made.items ≡ lanes) }
    ensures new { IfOk result (λ made. All
        (λ courier. ⟦<Courier<Told<'a, C, R, W>> as PostHook>⟧.is_sound courier
        × (⟦<Courier<Told<'a, C, R, W>> as PostHook>⟧.handed courier ≡ []))
        made.items) }
{
    let mut made = Vec::new(alloc);
    for _ in 0..lanes {
        let way = InTurn::new(Post::new(client, end), LineDelivery::new(rt, lines));
        add_courier(&mut made, way)?;
    }
    Ok(made)
}

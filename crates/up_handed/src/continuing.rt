//! The post-hooks of the lanes of a server that continues where earlier runs ended.
ghost use Rattle.std.specs.Prelude.{◌≡◌, [], All, IfOk, vec_len};
ghost use Rattle.up_handed.specs.Openings.{hooks_of, counts_of, opened_counts};

use crate::continued::Continued;
use crate::noting::{Endings, Noting};
use crate::opened::Opened;
use sqlite_disk::Disk;
use std::alloc::{AllocError, Global};
use std::marker::Send;
use up_hooks::PostHook;

/// Makes the post-hook of each lane continue after the events that the count at its place includes, and report which
/// uploads have ended. `AllocError` if memory runs out.
pub fn continue_each<H: PostHook + Drop, D: Disk + Send + Drop, E: Endings + Copy>(
    alloc: Global,
    hooks: Vec<H>,
    counts: Vec<Opened<D>>,
    endings: E,
) -> Result<Vec<Noting<Continued<H, D>, E>>, AllocError>
    requires new { All (λ h. H.is_sound h × (H.handed h ≡ [])) hooks.items }
    requires one_each { vec_len counts ≡ vec_len hooks }
    ensures one_for_each { IfOk result (λ made. vec_len made ≡ vec_len hooks) }
    ensures hooks { IfOk result (λ made. hooks_of made.items ≡ hooks.items) }
    ensures counts { IfOk result (λ made. counts_of made.items ≡ opened_counts counts.items) }
    ensures new { IfOk result (λ made. All
        (λ n. ⟦<Noting<Continued<H, D>, E> as PostHook>⟧.is_sound n
        × (⟦<Noting<Continued<H, D>, E> as PostHook>⟧.handed n ≡ [])) made.items) }
{
    let mut made = Vec::with_capacity(alloc, hooks.len())?;
    for (hook, opened) in hooks.into_iter().zip(counts) {
        let Opened { handed, left_out } = opened;
        let continued = Continued::without(hook, handed, left_out);
        made.push(Noting::new(continued, endings))?;
    }
    Ok(made)
}

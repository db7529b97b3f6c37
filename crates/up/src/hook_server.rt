//! The hook server that the arguments ask for.
use crate::fault::Fault;
use std::sync::Arc;
use std::sync::atomic::AtomicBool;
use up_hook_client::{Enabled, HookClient, HookServer, field_names};
use up_words::{HookWords, Words};

/// The hook server, as the words about it describe it. The error says which of them is wrong, or that memory ran out.
fn client_by(rt: &HostRuntime, wanted: &HookWords) -> Result<HookClient<HostRuntime>, Fault> {
    let alloc = rt.alloc();
    let server = HookServer::parse(alloc, wanted.url.as_str())?.ok_or(Fault::HookUrl)?;
    let forwarded = match &wanted.forwarded {
        Some(names) => field_names(alloc, names.as_str())?.ok_or(Fault::HookFields)?,
        None => Vec::new(alloc),
    };
    let enabled = match &wanted.enabled {
        Some(names) => Enabled::parse(names.as_str()).ok_or(Fault::HookNames)?,
        None => Enabled::all(),
    };
    Ok(HookClient {
        rt: *rt,
        server,
        timeout: wanted.timeout,
        forwarded,
        enabled,
        has_remarked: Arc::new(alloc, AtomicBool::new(false))?,
    })
}

/// The hook server that the arguments ask for. `None` if they ask for none. The error says which word about it is wrong,
/// or that memory ran out.
pub fn client_of(
    rt: &HostRuntime,
    words: &Words,
) -> Result<Option<HookClient<HostRuntime>>, Fault> {
    match &words.serve {
        Some(serving) => match &serving.hooks {
            Some(wanted) => Ok(Some(client_by(rt, wanted)?)),
            None => Ok(None),
        },
        None => Ok(None),
    }
}

//! Where a hook server is reached.
use http_uri::{Authority, PathAndQuery, Uri};
use std::alloc::{AllocError, Global};

/// The port of a URL that names none (RFC 9110, section 4.2.1).
const DEFAULT_PORT: u16 = 80;

/// Where a hook server is reached.
#[derive(Clone, Drop)]
pub struct HookServer {
    /// The host and the port to connect to, which are also the value of `Host`.
    pub address: String,
    /// The request target: a path, and a query if there is one.
    pub target: String,
}

/// Whether the text can be a request target.
fn is_target(text: &str) -> bool {
    !text.is_empty() && text.as_bytes().iter().all(|byte| byte.is_ascii_graphic())
}

/// The port in an authority, or that of a URL that names none.
fn port_of(authority: &Authority) -> u16 {
    authority.port_u16().unwrap_or(DEFAULT_PORT)
}

/// The address of the host in an authority. `None` if there is no host, or if there is a user's name.
fn address_of(alloc: Global, authority: &Authority) -> Result<Option<String>, AllocError> {
    let host = authority.host();
    if host.is_empty() || authority.as_str().as_bytes().contains(&b'@') {
        return Ok(None);
    }
    let port = port_of(authority);
    Ok(Some(format!(in alloc; "{host}:{port}")?))
}

/// The request target in a URL. `None` if it has none.
fn target_of(uri: &Uri) -> Option<&str> {
    uri.path_and_query()
        .map(PathAndQuery::as_str)
        .filter(|target| is_target(target))
}

/// The hook server at a URL.
fn server_at(alloc: Global, uri: &Uri) -> Result<Option<HookServer>, AllocError> {
    let (Some("http"), Some(authority), Some(target)) = (
        uri.scheme_str(),
        uri.authority(),
        target_of(uri),
    ) else {
        return Ok(None);
    };
    match address_of(alloc, authority)? {
        Some(address) => {
            let target = String::from_str(alloc, target)?;
            Ok(Some(HookServer { address, target }))
        }
        None => Ok(None),
    }
}

impl HookServer {
    /// The hook server at a URL: `http`, a host, a port if it isn't 80, a path and a query. `None` for any other text,
    /// also for one with a user's name. `AllocError` if memory runs out.
    pub fn parse(alloc: Global, url: &str) -> Result<Option<HookServer>, AllocError> {
        match Uri::from_str(alloc, url) {
            Ok(uri) => server_at(alloc, &uri),
            Err(_) => Ok(None),
        }
    }
}

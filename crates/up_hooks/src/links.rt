//! Connections that are kept between questions.
use std::alloc::Global;
use std::net::TcpStream;
use std::sync::Mutex;
use up_events::NoMemory;

/// Connections to somebody who is asked, kept between the questions of all connections of a server.
#[derive(Drop)]
pub struct Links {
    places: Vec<Mutex<Option<TcpStream>>>,
}

impl Links {
    /// Places for this number of connections. `NoMemory` if memory runs out.
    pub fn new(alloc: Global, count: u64) -> Result<Links, NoMemory> {
        let mut places = Vec::new(alloc);
        for _ in 0..count {
            places.push(Mutex::new(None))?;
        }
        Ok(Links { places })
    }

    /// No places, so that no connection is kept. Takes no memory.
    pub fn none(alloc: Global) -> Links {
        Links {
            places: Vec::new(alloc),
        }
    }

    /// Takes a connection out, if there is one. Waits for nobody.
    pub(crate) fn take(&self) -> Option<TcpStream> {
        for place in &self.places {
            if let Some(mut kept) = place.try_lock()
                && let Some(stream) = kept.take()
            {
                return Some(stream);
            }
        }
        None
    }

    /// Keeps a connection, or closes it if there is no room. Waits for nobody.
    pub(crate) fn put(&self, stream: TcpStream) {
        for place in &self.places {
            if let Some(mut kept) = place.try_lock()
                && kept.is_none()
            {
                *kept = Some(stream);
                return;
            }
        }
    }
}

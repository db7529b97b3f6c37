//! The request that a change comes from.
ghost use Rattle.std.specs.Prelude.{◌≡◌, IfOk};

use std::alloc::Global;
use std::net::{SocketAddr, TcpStream};
use std::sync::Mutex;
use up_events::{Id, NoMemory};
use up_message::{Field, Message, Sequence};

/// What closures see of the request that a change comes from: its head, and its client.
#[derive(Drop)]
pub struct Origin {
    /// The id that an upload will have that is to be made. `None` for any other request.
    pub id: Option<Id>,
    /// The method. Empty if the request isn't known.
    pub method: Sequence<u8>,
    /// The request target, as sent.
    pub target: Sequence<u8>,
    /// The fields of the head, in order.
    pub fields: Sequence<Field>,
    /// The client's address, if it is known. Behind a proxy it is the proxy's.
    pub client: Option<SocketAddr>,
    /// A connection that is lent to the closure, and that it leaves here for the next question.
    link: Mutex<Option<TcpStream>>,
}

/// A copy of a field.
fn copy_field(alloc: Global, field: &Field) -> Result<Field, NoMemory>
    ensures { IfOk result (λ made. made ≡ field.now) }
{
    Ok((
        Sequence::from_slice(alloc, field.0.as_slice())?,
        Sequence::from_slice(alloc, field.1.as_slice())?,
    ))
}

/// A copy of the fields.
fn copy_fields(alloc: Global, fields: &[Field]) -> Result<Sequence<Field>, NoMemory>
    ensures { IfOk result (λ made. made ≡ fields.now) }
{
    let mut made = Sequence::new(alloc);
    for field in fields {
        made.push(copy_field(alloc, field)?)?;
    }
    Ok(made)
}

impl Origin {
    /// A request of which nothing is known. Takes no memory.
    pub fn unknown(alloc: Global) -> Self {
        Origin {
            id: None,
            method: Sequence::new(alloc),
            target: Sequence::new(alloc),
            fields: Sequence::new(alloc),
            client: None,
            link: Mutex::new(None),
        }
    }

    /// The head of a message, from a client with this address. `NoMemory` if memory runs out.
    pub fn of(
        alloc: Global,
        message: &Message,
        client: Option<SocketAddr>,
    ) -> Result<Self, NoMemory>
        ensures target { IfOk result (λ origin. origin.target ≡ message.now.target) }
        ensures fields { IfOk result (λ origin. origin.fields ≡ message.now.fields) }
        ensures client { IfOk result (λ origin. origin.client ≡ client) }
    {
        Ok(Origin {
            id: None,
            method: Sequence::from_slice(alloc, message.method.as_str().as_bytes())?,
            target: Sequence::from_slice(alloc, message.target.as_slice())?,
            fields: copy_fields(alloc, message.fields.as_slice())?,
            client,
            link: Mutex::new(None),
        })
    }

    /// Leaves a connection there, or none.
    pub fn leave(&self, link: Option<TcpStream>) {
        if let Some(mut place) = self.link.try_lock() {
            *place = link;
        }
    }

    /// Takes the connection that was left there, if there is one.
    pub fn take(&self) -> Option<TcpStream> {
        self.link.try_lock()?.take()
    }
}

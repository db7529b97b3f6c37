//! A connection to a hook server, which carries one request after another.
ghost use Rattle.std.specs.Prelude.{◌≡◌, ◌≤◌, IfOk, length, string_bytes};
ghost use Rattle.up_hook_client.specs.Answers.{asked_of, body_of, status_of};

use crate::deadline::Deadline;
use crate::no_answer::{MAX_ANSWER, NoAnswer};
use crate::server::HookServer;
use bytes::{Buf, BytesMut};
use http1::{BodySize, Client, Event, Header, Limits};
use httparse::spans::{EMPTY_HEADER_SPAN, HeaderSpan, Span};
use libc::net::{IPPROTO_TCP, TCP_QUICKACK, setsockopt};
use std::io::Write;
use std::net::{Net, TcpListener, TcpStream, ToSocketAddrs};
use std::os::fd::AsRawFd;
use std::snapshot::Snapshot;
use std::time::{Clock, Duration};

/// The most fields of the head of an answer.
const MAX_FIELDS: usize = 64;

/// How many bytes are read at a time.
const READ: usize = 4096;

/// The number 1 of an option of a socket, which has four bytes.
const ON: [u8; 16] = [1, 0, 0, 0, 0, 0, 0, 0, 0, 0, 0, 0, 0, 0, 0, 0];

/// A whole answer of a hook server. It is made in one place alone, once http1 has read the end of it.
#[derive(Drop)]
pub struct Answer {
    status: u16,
    body: Vec<u8>,
    /// The body of the request that it answers.
    asked: Snapshot<String>,
}

impl Answer {
    /// The status code (RFC 9110, section 15).
    pub fn status(&self) -> u16
        ensures { result ≡ status_of self.now }
    {
        self.status
    }

    /// The body, of at most 64 KiB.
    pub fn body(&self) -> &[u8]
        ensures { result.now ≡ body_of self.now }
    {
        &self.body
    }
}

/// What a step found of an answer.
#[derive(Clone, Copy, PartialEq, Eq)]
enum Step {
    /// More bytes are needed.
    Nothing,
    /// A part of it.
    Part,
    /// Its end.
    End,
}

/// What has come of an answer.
#[derive(Drop)]
struct Coming {
    status: u16,
    body: Vec<u8>,
}

/// A connection to a hook server.
#[derive(Drop)]
pub struct Connection {
    stream: TcpStream,
    client: Client,
    /// The bytes of the request that are still to be sent.
    output: BytesMut,
    /// The bytes that arrived and were not taken yet.
    input: BytesMut,
    /// Whether a byte of the answer to the last request has arrived.
    has_begun: bool,
    /// How long the system was last told to wait in a write or a read. Zero if it wasn't told yet.
    patience: Duration,
}

/// Connects to the first address of the host that answers. The error is that of the last one.
fn connect<R: Net<Listener = TcpListener, Stream = TcpStream> + Clock>(
    rt: &R,
    address: &str,
    deadline: Deadline<'_>,
) -> Result<TcpStream, NoAnswer> {
    let mut last = NoAnswer::Late;
    for addr in address.to_socket_addrs(rt)? {
        match TcpStream::connect_timeout(rt, &addr, deadline.left(rt)?) {
            Ok(stream) => return Ok(stream),
            Err(error) => last = NoAnswer::from(error),
        }
    }
    Err(last)
}

/// Has the system acknowledge at once what has arrived. A server that writes the head and the body of an answer apart
/// waits with the second one for the acknowledgement of the first, which else comes 40 ms later. The system forgets
/// this, so it is said before each read but the first one of an answer.
fn acknowledge_at_once(stream: &TcpStream) {
    let fd = stream.as_raw_fd();
    let _ = unsafe { setsockopt(fd, IPPROTO_TCP, TCP_QUICKACK, &ON, 4) };
}

impl Connection {
    /// A new connection to the server.
    pub fn open<R: Net<Listener = TcpListener, Stream = TcpStream> + Clock + AllocGlobal>(
        rt: &R,
        server: &HookServer,
        deadline: Deadline<'_>,
    ) -> Result<Connection, NoAnswer> {
        let stream = connect(rt, server.address.as_str(), deadline)?;
        stream.set_nodelay(true)?;
        Ok(Connection::over(rt, stream))
    }

    /// A connection that is open already, and idle.
    pub fn over<R: AllocGlobal>(rt: &R, stream: TcpStream) -> Connection {
        Connection {
            stream,
            client: Client::new(Limits::default()),
            output: BytesMut::new(rt.alloc()),
            input: BytesMut::new(rt.alloc()),
            has_begun: false,
            patience: Duration::ZERO,
        }
    }

    /// Whether another request can be sent.
    pub fn is_idle(&self) -> bool {
        self.client.is_idle() && self.input.is_empty()
    }

    /// The socket.
    pub fn into_stream(self) -> TcpStream {
        self.stream
    }

    /// Whether a byte of the answer to the last request has arrived.
    pub fn has_begun(&self) -> bool {
        self.has_begun
    }

    /// Sends a text in JSON to the server, and waits for the whole answer.
    pub fn ask<R: Clock + AllocGlobal>(
        &mut self,
        rt: &R,
        server: &HookServer,
        text: &String,
        deadline: Deadline<'_>,
    ) -> Result<Answer, NoAnswer>
        ensures asked { IfOk result (λ answer. asked_of answer ≡ string_bytes text.now) }
    {
        self.prepare(server, text.as_bytes())?;
        self.send(rt, deadline)?;
        let Coming { status, body } = self.receive(rt, deadline)?;
        Ok(Answer {
            status,
            body,
            asked: Snapshot::of(text),
        })
    }

    /// Puts a request with a body in JSON into the output.
    fn prepare(&mut self, server: &HookServer, body: &[u8]) -> Result<(), NoAnswer> {
        let headers = [
            Header {
                name: b"Host",
                value: server.address.as_bytes(),
            },
            Header {
                name: b"Content-Type",
                value: b"application/json",
            },
        ];
        let size = BodySize::Known(body.len() as u64);
        let target = server.target.as_bytes();
        self.output.clear();
        self.client
            .write_request(&mut self.output, b"POST", target, &headers, size)?;
        self.client.write_data(&mut self.output, body)?;
        self.client.write_end(&mut self.output, &[])?;
        Ok(())
    }

    /// Has a write and a read wait as long as time is left, and for a second at most.
    fn wait_for<R: Clock>(&mut self, rt: &R, deadline: Deadline<'_>) -> Result<(), NoAnswer> {
        let slice = deadline.slice(rt)?;
        if slice != self.patience {
            self.stream.set_write_timeout(Some(slice))?;
            self.stream.set_read_timeout(Some(slice))?;
            self.patience = slice;
        }
        Ok(())
    }

    /// Sends some bytes of the output. Waits for a second at most.
    fn send_some<R: Clock>(&mut self, rt: &R, deadline: Deadline<'_>) -> Result<(), NoAnswer> {
        self.wait_for(rt, deadline)?;
        let count = self.stream.write(self.output.as_slice())?;
        if count == 0 || count > self.output.len() {
            return Err(NoAnswer::Cut);
        }
        self.output.advance(count);
        Ok(())
    }

    /// Sends the output.
    fn send<R: Clock>(&mut self, rt: &R, deadline: Deadline<'_>) -> Result<(), NoAnswer> {
        self.has_begun = false;
        for _ in 0..u64::MAX {
            if self.output.is_empty() {
                return Ok(());
            }
            match self.send_some(rt, deadline) {
                Ok(()) => {}
                Err(NoAnswer::Late) => {
                    deadline.left(rt)?;
                }
                Err(error) => return Err(error),
            }
        }
        Err(NoAnswer::Late)
    }

    /// Takes a part of the answer from the bytes that arrived. `spans` is where http1 notes fields.
    fn take(&mut self, coming: &mut Coming, spans: &mut [HeaderSpan]) -> Result<Step, NoAnswer> {
        let progress = self.client.read(self.input.as_slice(), spans)?;
        let step = match progress.event {
            Event::NeedMore => Step::Nothing,
            Event::Head(head) => {
                coming.status = head.code;
                Step::Part
            }
            Event::Informational(_) => Step::Part,
            Event::Data(span) => {
                add(&mut coming.body, span, self.input.as_slice())?;
                Step::Part
            }
            Event::End(_) => Step::End,
            Event::Paused | Event::Upgraded | Event::Closed => return Err(NoAnswer::Cut),
        };
        self.input.advance(progress.consumed);
        Ok(step)
    }

    /// Waits for more bytes of the answer, for a second at most. Returns how many came.
    fn read_some<R: Clock>(&mut self, rt: &R, deadline: Deadline<'_>) -> Result<usize, NoAnswer> {
        self.wait_for(rt, deadline)?;
        if self.has_begun {
            acknowledge_at_once(&self.stream);
        }
        Ok(self.input.read_from(&mut self.stream)?)
    }

    /// Reads more bytes of the answer. Returns whether the other side has closed the connection.
    fn read<R: Clock>(&mut self, rt: &R, deadline: Deadline<'_>) -> Result<bool, NoAnswer> {
        self.input.reserve(READ)?;
        for _ in 0..u64::MAX {
            match self.read_some(rt, deadline) {
                Ok(count) => {
                    self.has_begun |= count > 0;
                    return Ok(count == 0);
                }
                Err(NoAnswer::Late) => {
                    deadline.left(rt)?;
                }
                Err(error) => return Err(error),
            }
        }
        Err(NoAnswer::Late)
    }

    /// Waits for the whole answer to the request that was sent.
    fn receive<R: Clock + AllocGlobal>(
        &mut self,
        rt: &R,
        deadline: Deadline<'_>,
    ) -> Result<Coming, NoAnswer> {
        let mut spans = [EMPTY_HEADER_SPAN; MAX_FIELDS];
        let mut coming = Coming {
            status: 0,
            body: Vec::new(rt.alloc()),
        };
        for _ in 0..u64::MAX {
            let step = if self.has_begun {
                self.take(&mut coming, &mut spans)?
            } else {
                Step::Nothing
            };
            match step {
                Step::End => return Ok(coming),
                Step::Part => {}
                Step::Nothing => {
                    if self.read(rt, deadline)? {
                        return match self.client.read_eof()? {
                            Event::End(_) => Ok(coming),
                            _ => Err(NoAnswer::Cut),
                        };
                    }
                }
            }
        }
        Err(NoAnswer::Late)
    }
}

/// Adds these bytes of the input to a body.
fn add(body: &mut Vec<u8>, span: Span, input: &[u8]) -> Result<(), NoAnswer>
    requires ordered { span.start ≤ span.end }
    requires in_range { span.end ≤ length input.now }
{
    let piece = span.of(input);
    if piece.len() > MAX_ANSWER.saturating_sub(body.len()) {
        return Err(NoAnswer::TooLong);
    }
    body.extend_from_slice(piece)?;
    Ok(())
}

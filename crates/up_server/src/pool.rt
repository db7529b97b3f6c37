//! Threads that wait for a connection.
use std::alloc::{AllocError, Global};
use std::net::TcpStream;
use std::sync::atomic::{AtomicU64, Ordering};
use std::sync::{Mutex, Wait};
use std::time::Duration;

/// How many threads may wait for a connection. One more ends instead of waiting.
const MAX_WAITING: usize = 64;

/// How many seconds a thread sleeps before it checks whether it was handed a connection without being woken.
const SLEEP: u64 = 1;

/// How many times a thread sleeps before it ends.
const MAX_SLEEPS: u32 = 3;

/// Connections that no thread has taken yet, and how many threads wait for one. There are never more connections than
/// waiting threads.
#[derive(Drop)]
struct Handed {
    streams: Vec<TcpStream>,
    waiting: usize,
    is_closed: bool,
}

impl Handed {
    /// Adds a connection if a thread waits for it. If none does, the connection comes back.
    fn add(&mut self, stream: TcpStream) -> Option<TcpStream> {
        let count = self.streams.len();
        if count >= self.waiting || count >= self.streams.capacity() {
            return Some(stream);
        }
        self.streams.push_reserved(stream);
        None
    }
}

/// Threads that have served a connection and wait some seconds for another, because that costs less than to start a new
/// thread.
#[derive(Drop)]
pub struct Pool {
    handed: Mutex<Handed>,
    /// Counts the news: connections that were handed over, and the end of the pool. Threads sleep on it.
    news: AtomicU64,
}

impl Pool {
    /// No thread waits. All of its memory is allocated here. The error is that it ran out.
    pub fn new(alloc: Global) -> Result<Pool, AllocError> {
        let handed = Mutex::new(Handed {
            streams: Vec::with_capacity(alloc, MAX_WAITING)?,
            waiting: 0,
            is_closed: false,
        });
        Ok(Pool {
            handed,
            news: AtomicU64::new(0),
        })
    }

    /// Hands a connection to a thread that waits for one. If none does, the connection comes back.
    pub fn hand<R: Wait>(&self, rt: &R, stream: TcpStream) -> Option<TcpStream> {
        let mut handed = self.handed.lock(rt);
        let back = handed.add(stream);
        if back.is_none() {
            self.news.fetch_add(1, Ordering::SeqCst);
        }
        drop(handed);
        if back.is_none() {
            self.news.wake_one();
        }
        back
    }

    /// Waits for the next connection. `None` if the pool is closed, if enough threads wait already, or if none came
    /// within some seconds.
    pub fn next<R: Wait>(&self, rt: &R) -> Option<TcpStream> {
        let mut seen = self.enter(rt)?;
        for _ in 0..MAX_SLEEPS {
            self.news.park_timeout(rt, seen, Duration::from_secs(SLEEP));
            let mut handed = self.handed.lock(rt);
            if let Some(stream) = handed.streams.pop() {
                handed.waiting = handed.waiting.saturating_sub(1);
                return Some(stream);
            }
            if handed.is_closed {
                break;
            }
            seen = self.told();
        }
        self.leave(rt)
    }

    /// Ends the threads that wait, and those that would wait later.
    pub fn close<R: Wait>(&self, rt: &R) {
        let mut handed = self.handed.lock(rt);
        handed.is_closed = true;
        self.news.fetch_add(1, Ordering::SeqCst);
        drop(handed);
        self.news.wake_all();
    }

    /// One more thread waits. Returns what `told` does. `None` if the pool is closed, or if enough threads wait.
    fn enter<R: Wait>(&self, rt: &R) -> Option<u32> {
        let mut handed = self.handed.lock(rt);
        if handed.is_closed || handed.waiting >= MAX_WAITING {
            return None;
        }
        handed.waiting += 1;
        Some(self.told())
    }

    /// One thread fewer waits. It takes a connection that was handed over meanwhile, if there is one.
    fn leave<R: Wait>(&self, rt: &R) -> Option<TcpStream> {
        let mut handed = self.handed.lock(rt);
        handed.waiting = handed.waiting.saturating_sub(1);
        handed.streams.pop()
    }

    /// The count of the news modulo 2^32, which is what a sleep compares. Must be called under the lock.
    fn told(&self) -> u32 {
        (self.news.load(Ordering::SeqCst) & 0xffff_ffff) as u32
    }
}

//! The settings of a run of the server.
ghost use Rattle.std.specs.Prelude.{◌≡◌, ℕ, ◌≤◌, Some, option_and_then};
ghost use Rattle.up_events.specs.declared.limits.TheConstants.{MAX_UPLOAD_BYTES, MAX_LANES};
ghost use Rattle.up_words.specs.Limits.{max_capacity, max_connections, max_open, max_shard};
ghost use Rattle.up_words.specs.declared.settings.TheConstants.{MAX_CAPACITY, MAX_CONNECTIONS, MAX_HOOK_TIMEOUT, MAX_OPEN};

/// The maximum number of items in the queue of a lane.
pub const MAX_CAPACITY: u64 = 4096;

/// The maximum number of connections after which a server can be asked to end.
pub const MAX_CONNECTIONS: u64 = 65_536;

/// The maximum number of connections that are open at a time.
pub const MAX_OPEN: u64 = 4096;

/// The greatest possible shard, a byte.
pub const MAX_SHARD: u64 = 255;

/// The constants are exactly the numbers in `specs/Limits.antt`.
pub fn limits_are_exact()
    ensures capacity { MAX_CAPACITY ≡ max_capacity }
    ensures connections { MAX_CONNECTIONS ≡ max_connections }
    ensures at_a_time { MAX_OPEN ≡ max_open }
    ensures shard { MAX_SHARD ≡ max_shard }
{}

/// The maximum number of seconds for which a connection may be silent: a day.
pub const MAX_PATIENCE: u64 = 86_400;

/// The maximum number of seconds between two lines about the state of the server: a day.
pub const MAX_STATUS: u64 = 86_400;

/// The maximum number of seconds for the lanes after the end of a run: a day.
pub const MAX_GRACE: u64 = 86_400;

/// The maximum number of seconds that a hook server has for an answer.
pub const MAX_HOOK_TIMEOUT: u64 = 600;

/// The size of a server.
#[derive(Clone, Copy, Debug, PartialEq, Eq)]
pub struct Settings {
    /// The number of lanes that hand over events, from 1 to 16. The lane of an upload is its id modulo this number.
    pub lanes: u64,
    /// The number of items that the queue of a lane holds, from 1 to 4,096.
    pub capacity: u64,
    /// The maximum number of bytes of an upload and of a message's body, from 1 to 2^30.
    pub max_size: u64,
    ghost lanes_within: { (1 ≤ lanes) × (lanes ≤ MAX_LANES) },
    ghost capacity_within: { (1 ≤ capacity) × (capacity ≤ MAX_CAPACITY) },
    ghost max_size_within: { (1 ≤ max_size) × (max_size ≤ MAX_UPLOAD_BYTES) },
}

impl Default for Settings {
    /// Two lanes, 16 items per queue, and 1 MiB.
    fn default() -> Self {
        Settings {
            lanes: 2,
            capacity: 16,
            max_size: 1 << 20,
        }
    }
}

/// The hook server that is asked and told.
#[derive(Debug, Drop, PartialEq, Eq)]
pub struct HookWords {
    /// Its URL, as it was written.
    pub url: String,
    /// How many seconds it has for an answer, from 1 to 600.
    pub timeout: u64,
    /// The names of the fields of a request that it is told, with commas between. `None` if it is told none.
    pub forwarded: Option<String>,
    /// The names of the hooks that it is asked or told of, with commas between. `None` for all hooks.
    pub enabled: Option<String>,
    ghost timeout_within: { (1 ≤ timeout) × (timeout ≤ MAX_HOOK_TIMEOUT) },
}

/// Which connections are served, and where.
#[derive(Debug, Drop, PartialEq, Eq)]
pub struct Serving {
    /// The host and the port to listen at, as they were written.
    pub address: String,
    /// The number of connections that are served, from 1 to 65,536. `None` if there is no limit.
    pub connections: Option<u64>,
    /// The number of connections that are open at a time, from 1 to 4,096.
    pub open: u64,
    /// For how many seconds a connection may be silent, from 1 to 86,400. `None` if there is no limit.
    pub patience: Option<u64>,
    /// The minimum rate of a request and of an answer in bytes per second, from 1 to 2^30. `None` if there is no limit.
    pub least_rate: Option<u64>,
    /// The number of seconds between two lines about the state of the server, from 1 to 86,400. `None` if there are no
    /// such lines.
    pub status: Option<u64>,
    /// Whether each event is written as a line when it is handed over.
    pub events: bool,
    /// Whether the run ends in order once standard input has ended.
    pub until_eof: bool,
    /// How many seconds the lanes then have, from 1 to 86,400.
    pub grace: u64,
    /// The first byte of the ids of new uploads. `None` if all bytes of an id are random.
    pub shard: Option<u8>,
    /// The folder that keeps uploads and changes. `None` if they are only in memory.
    pub store: Option<String>,
    /// The hook server. `None` if there is none.
    pub hooks: Option<HookWords>,
    ghost connections_within: { (count : ℕ) → connections ≡ Some count → (1 ≤ count) × (count ≤ MAX_CONNECTIONS) },
    ghost open_within: { (1 ≤ «open») × («open» ≤ MAX_OPEN) },
}

/// What the command line asks for.
#[derive(Debug, Default, Drop, PartialEq, Eq)]
pub struct Words {
    pub settings: Settings,
    /// The key that the metadata of each plain or final upload must have.
    pub require_key: Option<String>,
    /// The maximum number of bytes of an upload whose length is known when it is created, in addition to the limit in
    /// the settings.
    pub max_length: Option<u64>,
    /// Whether uploads may not be removed.
    pub keep: bool,
    /// The maximum number of bytes of an upload when it becomes complete.
    pub max_finish: Option<u64>,
    /// The connections that are served. `None` if standard input is served.
    pub serve: Option<Serving>,
}

impl Words {
    /// The first byte of the ids of new uploads, if the words ask for one.
    pub fn shard(&self) -> Option<u8>
        ensures { result ≡ option_and_then (λ serving. serving.shard) self.now.serve }
    {
        self.serve.as_ref()?.shard
    }
}

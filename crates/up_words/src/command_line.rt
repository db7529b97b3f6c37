//! The words of the command line.
ghost use Rattle.std.specs.Prelude.{◌≡◌, ◌≤◌, IfOk, IfSome, option_map, string_bytes};
ghost use Rattle.clap.specs.Words.{first_value, found_of};

use crate::settings::{
    HookWords, MAX_CAPACITY, MAX_CONNECTIONS, MAX_GRACE, MAX_HOOK_TIMEOUT, MAX_OPEN, MAX_PATIENCE,
    MAX_SHARD, MAX_STATUS, Serving, Settings, Words,
};
use clap::builder::ValueParser;
use clap::error::ErrorKind;
use clap::{Arg, ArgAction, ArgMatches, Command, Error};
use std::alloc::{AllocError, Global};
use up_events::{MAX_LANES, MAX_UPLOAD_BYTES};

/// The output of `--version`: the version of the program, and the logic of the toolchain that proved it, as in
/// `rt version`.
pub const VERSION: &str = "1.0.0\nproved by Rattle's logic dac8208d650f15bf";

/// Why the command line could not be read.
#[derive(Debug, Drop, thiserror::Error)]
pub enum WordsFault {
    /// `clap` refuses the words, or was asked for help or the version. Its error contains the text for the user.
    #[error(transparent)]
    Refused(Error),
    #[error("out of memory")]
    Memory,
}

impl From<AllocError> for WordsFault {
    fn from(_: AllocError) -> Self {
        WordsFault::Memory
    }
}

impl From<Error> for WordsFault {
    fn from(error: Error) -> Self {
        if error.kind() == ErrorKind::OutOfMemory {
            WordsFault::Memory
        } else {
            WordsFault::Refused(error)
        }
    }
}

/// The value of a word.
#[derive(Clone, Copy)]
enum Kind<'a> {
    Nothing,
    /// A text, with its name in the help.
    Text(&'a str),
    /// A number between these two, inclusive.
    Number(u64, u64),
}

/// A word of the command line.
#[derive(Clone, Copy)]
struct Word<'a> {
    name: &'a str,
    kind: Kind<'a>,
    /// The value if the word is not given.
    default: Option<&'a str>,
    help: &'a str,
}

/// The words of `serve`: first those that say which connections are served and what is reported meanwhile, then those
/// of every server.
static WORDS: [Word<'static>; 18] = [
    Word {
        name: "address",
        kind: Kind::Text("HOST:PORT"),
        default: Some("127.0.0.1:1080"),
        help: "Where to listen; at port 0 the system picks one",
    },
    Word {
        name: "connections",
        kind: Kind::Number(1, MAX_CONNECTIONS),
        default: None,
        help: "End and report after N connections, from 1 to 65536; without it the server goes on",
    },
    Word {
        name: "open",
        kind: Kind::Number(1, MAX_OPEN),
        default: Some("1024"),
        help: "How many connections are open at a time, from 1 to 4096; others wait",
    },
    Word {
        name: "patience",
        kind: Kind::Number(1, MAX_PATIENCE),
        default: None,
        help: "End a connection on which no byte moves for N seconds, from 1 to 86400",
    },
    Word {
        name: "least-rate",
        kind: Kind::Number(1, MAX_UPLOAD_BYTES),
        default: None,
        help: "End a connection whose request or answer moves at fewer than N bytes a second for more than 10 seconds",
    },
    Word {
        name: "status",
        kind: Kind::Number(1, MAX_STATUS),
        default: None,
        help: "Say on standard error every N seconds, from 1 to 86400, and at the end how the server stands",
    },
    Word {
        name: "events",
        kind: Kind::Nothing,
        default: None,
        help: "Write each event to standard output as a line, as it is handed over",
    },
    Word {
        name: "until-eof",
        kind: Kind::Nothing,
        default: None,
        help: "End in order and report once standard input has ended",
    },
    Word {
        name: "grace",
        kind: Kind::Number(1, MAX_GRACE),
        default: Some("10"),
        help: "How many seconds the events that are left have then, from 1 to 86400",
    },
    Word {
        name: "shard",
        kind: Kind::Number(0, MAX_SHARD),
        default: None,
        help: "Begin the ids of new uploads with the byte N, from 0 to 255, by which a proxy finds this server",
    },
    Word {
        name: "store",
        kind: Kind::Text("DIR"),
        default: None,
        help: "Keep uploads and changes in the folder DIR, and go on from what stands there",
    },
    Word {
        name: "lanes",
        kind: Kind::Number(1, MAX_LANES),
        default: Some("2"),
        help: "How many lanes hand events over, from 1 to 16",
    },
    Word {
        name: "capacity",
        kind: Kind::Number(1, MAX_CAPACITY),
        default: Some("16"),
        help: "How many items the queue of a lane holds, from 1 to 4096",
    },
    Word {
        name: "max-size",
        kind: Kind::Number(1, MAX_UPLOAD_BYTES),
        default: Some("1048576"),
        help: "The most bytes of an upload, from 1 to 1073741824",
    },
    Word {
        name: "require-key",
        kind: Kind::Text("K"),
        default: None,
        help: "Refuse a plain or final upload whose metadata has no key K",
    },
    Word {
        name: "max-length",
        kind: Kind::Number(0, u64::MAX),
        default: None,
        help: "Refuse an upload that is created with a length of more than N bytes, from 0 to 18446744073709551615",
    },
    Word {
        name: "keep",
        kind: Kind::Nothing,
        default: None,
        help: "Refuse to remove an upload",
    },
    Word {
        name: "max-finish",
        kind: Kind::Number(0, u64::MAX),
        default: None,
        help: "Refuse to complete an upload of more than N bytes, from 0 to 18446744073709551615",
    },
];

/// Where the words of every server begin: its size, and what it refuses. `replay` has only these.
const COMMON: usize = 11;

/// The word that asks for a hook server.
const HOOKS: &str = "hooks-http";

/// The words of `serve` about a hook server. The others need the first.
static HOOK_WORDS: [Word<'static>; 4] = [
    Word {
        name: "hooks-http",
        kind: Kind::Text("URL"),
        default: None,
        help: "Ask and tell the hook server at URL, which begins with http://, in the JSON of tusd's hooks",
    },
    Word {
        name: "hooks-http-timeout",
        kind: Kind::Number(1, MAX_HOOK_TIMEOUT),
        default: Some("10"),
        help: "How many seconds it has for an answer, from 1 to 600",
    },
    Word {
        name: "hooks-http-forward-headers",
        kind: Kind::Text("LIST"),
        default: None,
        help: "Tell it these fields of a request, their names with commas between",
    },
    Word {
        name: "hooks-enabled-events",
        kind: Kind::Text("LIST"),
        default: None,
        help: "Ask and tell it of these hooks alone, their names with commas between",
    },
];

/// What `replay` does.
const REPLAY: &str =
    "Serves the messages on standard input as one conversation, and reports what was handed over";

/// What `serve` does.
const SERVE: &str =
    "Serves connections, each as a conversation of its own, and reports what was handed over";

/// A word in the form that `clap` takes.
fn arg_of<'a>(alloc: Global, word: Word<'a>) -> Arg<'a> {
    let arg = Arg::new(alloc, word.name).long(word.name).help(word.help);
    let arg = match word.kind {
        Kind::Nothing => arg.action(ArgAction::SetTrue),
        Kind::Text(name) => arg.value_name(name),
        Kind::Number(least, most) => arg
            .value_name("N")
            .value_parser(ValueParser::unsigned(least, most)),
    };
    match word.default {
        Some(text) => arg.default_value(text),
        None => arg,
    }
}

/// A subcommand with these words.
fn subcommand<'a>(
    alloc: Global,
    name: &'a str,
    about: &'a str,
    words: &[Word<'a>],
) -> Result<Command<'a>, AllocError> {
    let mut command = Command::new(alloc, name).about(about);
    for word in words {
        command = command.arg(arg_of(alloc, *word))?;
    }
    Ok(command)
}

/// The subcommand, with these words about a hook server.
fn with_hook_words<'a>(
    alloc: Global,
    command: Command<'a>,
    words: &[Word<'a>],
) -> Result<Command<'a>, AllocError> {
    let mut command = command;
    for word in words {
        let arg = arg_of(alloc, *word);
        let arg = if word.name == HOOKS {
            arg
        } else {
            arg.requires_arg(HOOKS)?
        };
        command = command.arg(arg)?;
    }
    Ok(command)
}

/// The command with all words.
fn command<'a>(alloc: Global) -> Result<Command<'a>, AllocError> {
    let replay = subcommand(alloc, "replay", REPLAY, &WORDS[COMMON..])?;
    let serve = subcommand(alloc, "serve", SERVE, &WORDS)?;
    let serve = with_hook_words(alloc, serve, &HOOK_WORDS)?;
    let command = Command::new(alloc, "up")
        .about("An upload server for the tus resumable upload protocol 1.0.0")
        .version(VERSION)
        .no_binary_name(true)
        .subcommand_required(true)
        .bin_name("up")?;
    command.subcommand(replay)?.subcommand(serve)
}

/// The number of a word that has a default. `clap` has checked its limits.
fn value_of(matches: &ArgMatches<'_>, id: &str, most: u64) -> u64
    requires { 1 ≤ most }
    ensures { (1 ≤ result) × (result ≤ most) }
{
    matches.get_one::<u64>(id).unwrap_or(1).clamp(1, most)
}

/// A number from the command line, if it is given. `clap` has checked its limits.
fn number_of(matches: &ArgMatches<'_>, id: &str, most: u64) -> Option<u64>
    requires { 1 ≤ most }
    ensures { IfSome result (λ number. (1 ≤ number) × (number ≤ most)) }
{
    let number = matches.get_one::<u64>(id)?;
    Some(number.clamp(1, most))
}

/// The byte of a shard, if it is given. `clap` has checked its limits.
fn shard_of(serve: &ArgMatches<'_>) -> Option<u8> {
    let number = serve.get_one::<u64>("shard")?;
    Some(number.min(MAX_SHARD) as u8)
}

/// A text from the command line, if it is given.
fn text_of(alloc: Global, matches: &ArgMatches<'_>, id: &str) -> Result<Option<String>, AllocError>
    ensures { IfOk result (λ text.
        option_map string_bytes text ≡ first_value (found_of matches.now) id.now) }
{
    match matches.get_str(id) {
        Some(text) => Ok(Some(String::from_str(alloc, text)?)),
        None => Ok(None),
    }
}

/// The hook server that the words after `serve` ask for, if they ask for one.
fn hooks_of(alloc: Global, serve: &ArgMatches<'_>) -> Result<Option<HookWords>, AllocError> {
    let Some(url) = text_of(alloc, serve, "hooks-http")? else {
        return Ok(None);
    };
    Ok(Some(HookWords {
        url,
        timeout: value_of(serve, "hooks-http-timeout", MAX_HOOK_TIMEOUT),
        forwarded: text_of(alloc, serve, "hooks-http-forward-headers")?,
        enabled: text_of(alloc, serve, "hooks-enabled-events")?,
    }))
}

/// The connections that the words after `serve` ask for.
fn serving_of(alloc: Global, serve: &ArgMatches<'_>) -> Result<Serving, AllocError> {
    Ok(Serving {
        address: text_of(alloc, serve, "address")?.unwrap_or(String::new(alloc)),
        connections: number_of(serve, "connections", MAX_CONNECTIONS),
        open: value_of(serve, "open", MAX_OPEN),
        patience: number_of(serve, "patience", MAX_PATIENCE),
        least_rate: number_of(serve, "least-rate", MAX_UPLOAD_BYTES),
        status: number_of(serve, "status", MAX_STATUS),
        events: serve.get_flag("events"),
        until_eof: serve.get_flag("until-eof"),
        grace: value_of(serve, "grace", MAX_GRACE),
        shard: shard_of(serve),
        store: text_of(alloc, serve, "store")?,
        hooks: hooks_of(alloc, serve)?,
    })
}

/// What the words after `replay` or `serve` ask for.
fn words_of(
    alloc: Global,
    matches: &ArgMatches<'_>,
    serve: Option<Serving>,
) -> Result<Words, AllocError> {
    Ok(Words {
        settings: Settings {
            lanes: value_of(matches, "lanes", MAX_LANES),
            capacity: value_of(matches, "capacity", MAX_CAPACITY),
            max_size: value_of(matches, "max-size", MAX_UPLOAD_BYTES),
        },
        require_key: text_of(alloc, matches, "require-key")?,
        max_length: matches.get_one::<u64>("max-length"),
        keep: matches.get_flag("keep"),
        max_finish: matches.get_one::<u64>("max-finish"),
        serve,
    })
}

/// What the words after `serve` ask for.
fn words_to_serve(alloc: Global, serve: &ArgMatches<'_>) -> Result<Words, AllocError> {
    let serving = serving_of(alloc, serve)?;
    words_of(alloc, serve, Some(serving))
}

/// What the words ask for that `clap` found.
fn words_in(alloc: Global, matches: &ArgMatches<'_>) -> Result<Words, AllocError> {
    match matches.subcommand() {
        Some(("serve", serve)) => words_to_serve(alloc, serve),
        Some((_, replay)) => words_of(alloc, replay, None),
        None => Ok(Words::default()),
    }
}

/// Reads the words after the program's name. `Refused` for an unknown word, for a word that lacks its value or is given
/// twice, for a number outside its limits, and for `--help` and `--version`. `Memory` if memory runs out.
pub fn words(alloc: Global, words: Vec<String>) -> Result<Words, WordsFault> {
    let matches = command(alloc)?.try_get_matches_from(words.as_slice())?;
    Ok(words_in(alloc, &matches)?)
}

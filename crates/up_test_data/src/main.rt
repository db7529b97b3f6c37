//! Compares the crates with expected results that are data. Each word of the command line is the name of a file, whose
//! ending says what it has:
//!
//! - `.rows`: messages, responses, requests, courses of requests and command lines (`rows.rt`);
//! - `.talks`: whole conversations with the server (`talks.rt`);
//! - `.calls`: calls whose state is printed, and which may be refused memory (`calls.rt`).
//!
//! The files are read in the order of the words, and each of these modules says what is printed of them. If a file
//! cannot be read or has another ending, or if a module's call ends with an error, that is said on standard error, and
//! the status is 1.
#![tactic(auto)]

mod calls;
mod rows;
mod talks;
mod text;

use crate::calls::call_all;
use crate::rows::hold_rows;
use crate::talks::hold_talks;
use std::env::{self, Env};
use std::fs::{self, Files};
use std::io::{self, ErrorKind};
use std::marker::Sync;
use std::process::ExitCode;
use std::sync::Wait;
use std::thread::Threads;

/// Reads a file, and compares what it has.
fn hold_file(
    rt: &(impl Files + Print + AllocGlobal + Threads + Wait + Sync),
    name: &str,
) -> io::Result<()> {
    let text = fs::read_to_string(rt, name)?;
    if name.ends_with(".rows") {
        hold_rows(rt, text.as_str())
    } else if name.ends_with(".talks") {
        hold_talks(rt, text.as_str())
    } else if name.ends_with(".calls") {
        call_all(rt, text.as_str())
    } else {
        Err(io::Error::from(ErrorKind::InvalidInput))
    }
}

/// Reads each file of the command line, in order.
fn hold_each(
    rt: &(impl Env + Files + Print + AllocGlobal + Threads + Wait + Sync),
) -> io::Result<()> {
    for name in env::args(rt)?.skip(1) {
        hold_file(rt, name.as_str())?;
    }
    Ok(())
}

fn main(rt: HostRuntime) -> io::Result<ExitCode> {
    match hold_each(&rt) {
        Ok(()) => Ok(ExitCode::SUCCESS),
        Err(error) => {
            eprintln!(rt; "up_test_data: {error}")?;
            Ok(ExitCode::FAILURE)
        }
    }
}

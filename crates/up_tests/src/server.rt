//! Conversations with devices and closures of the tests: the responses and the report, compared byte by byte.
mod event_lines;
mod failing;
mod full_writer;
mod refusing;
mod scarce;

use crate::same::expect_same;
use std::process::Abort;
use up_server::ServerFault;

/// Checks a run that must end without an error and write this.
fn hold(rt: &impl Abort, ended: Result<(), ServerFault>, written: &[u8], wanted: &str) {
    let text = str::from_utf8(written).expect(rt, "text");
    expect_same(rt, &(ended, text), &(Ok(()), wanted));
}

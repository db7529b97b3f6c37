//! Why a line of the input cannot be read.
use crate::text::EscapeFault;
use std::alloc::AllocError;
use thiserror::Error;

/// Why a line is not one that a talk may have.
#[derive(Clone, Copy, Debug, PartialEq, Eq, Error)]
pub enum LineFault {
    #[error("no such mark")]
    Mark,
    #[error("no talk has begun")]
    Outside,
    #[error("a name is wanting")]
    NoName,
    #[error("said before")]
    Twice,
    #[error("no count, or no text behind it")]
    Count,
    #[error("the command line refuses these words")]
    Words,
    #[error(transparent)]
    Escape(#[from] EscapeFault),
    #[error(transparent)]
    Memory(#[from(alloc)] AllocError),
}

/// A line that cannot be read, and its number, counted from 1.
#[derive(Clone, Copy, Debug, PartialEq, Eq, Error)]
#[error("line {number}: {fault}")]
pub struct BadLine {
    pub number: usize,
    pub fault: LineFault,
}

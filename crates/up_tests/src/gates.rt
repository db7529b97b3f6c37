//! Closures and hooks that wait for events elsewhere, and a lane that stops and continues.
mod boards;
mod closures;
mod meeting;
mod stopping;

//! What is not proved about closures: how often they are called, and that calls succeed.
mod asking;
mod recording;

//! Tests of the crates from the closures to the server, and of what is on a disk: the log, what is restored from it,
//! shorter logs, lanes that continue where earlier runs ended, and boards whose changes are written to a log first. They
//! are for what no contract says about them, and use the crates from outside, as a program does.
#![tactic(auto)]

#[cfg(test)]
mod beside;
#[cfg(test)]
mod board;
#[cfg(test)]
mod bodies;
#[cfg(test)]
mod clients;
#[cfg(test)]
mod connections;
#[cfg(test)]
mod conversations;
#[cfg(test)]
mod desk;
#[cfg(test)]
mod failing;
#[cfg(test)]
mod faulty;
#[cfg(test)]
mod fifteen;
#[cfg(test)]
mod files;
#[cfg(test)]
mod gate;
#[cfg(test)]
mod gates;
#[cfg(test)]
mod handing;
#[cfg(test)]
mod heads;
#[cfg(test)]
mod hooks;
#[cfg(test)]
mod lanes;
#[cfg(test)]
mod logs;
#[cfg(test)]
mod noting;
#[cfg(test)]
mod places;
#[cfg(test)]
mod replaying;
#[cfg(test)]
mod replays;
#[cfg(test)]
mod requests;
#[cfg(test)]
mod same;
#[cfg(test)]
mod server;
#[cfg(test)]
mod serving;
#[cfg(test)]
mod shortening;
#[cfg(test)]
mod stores;
#[cfg(test)]
mod streams;
#[cfg(test)]
mod together;
#[cfg(test)]
mod twins;
#[cfg(test)]
mod unfinished;
#[cfg(test)]
mod ways;

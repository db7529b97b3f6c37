//! Who is let in, which seats connections take, and connections through sockets of this machine.
mod accept;
mod connection_limit;
mod said;
mod seats;

//! The objects outside as the system has them, over real files and sockets: a disk, its files, a link over UDP,
//! connections over TCP, and a peer over UDP. What is done with the latter two is also done with those in memory.
//!
//! The crate has tests and nothing else, and is told apart from the whole runs, so that neither is large.
#![tactic(auto)]

#[cfg(test)]
mod exchange;
#[cfg(test)]
mod files;
#[cfg(test)]
mod memory;
#[cfg(test)]
mod real_disk;
#[cfg(test)]
mod tcp;
#[cfg(test)]
mod udp;
#[cfg(test)]
mod udp_peer;

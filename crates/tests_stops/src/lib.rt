//! Only tests: what the table of contexts answers by itself, through public calls; why a store refuses a call; what
//! is found again after a stop of the machine, at any call of a disk; and what a client reads over a socket.
#![tactic(auto)]

#[cfg(test)]
mod contexts;
#[cfg(test)]
mod full;
#[cfg(test)]
mod looped;
#[cfg(test)]
mod migrations;
#[cfg(test)]
mod orders;
#[cfg(test)]
mod queue;
#[cfg(test)]
mod refusals;
#[cfg(test)]
mod restarts;
#[cfg(test)]
mod runs;
#[cfg(test)]
mod sockets;
#[cfg(test)]
mod stops;
#[cfg(test)]
mod together;

//! Whole connections: bytes in, bytes out.
//!
//! [`Broker::serve`] answers one connection. Its contract is the theorem that this program exists
//! for: what is written is exactly the texts that the machine gives to the requests that the bytes
//! are cut into (`specs/Connection.antt`), whatever pieces the bytes come in.
#![tactic(auto)]

mod answer;
mod applying;
mod begun;
mod broker;
mod buffer;
mod fault;
mod filling;
mod groups;
mod handling;
mod laws;
pub mod memory;
mod per_connection;
mod plans;
mod prepared;
pub mod refuse;
mod refused;
mod rooms;
mod runs;
mod serve;
mod setup;
mod waiting;

pub use begun::Begun;
pub use broker::Broker;
pub use buffer::Buffer;
pub use fault::{NewFault, ServeFault};
pub use laws::{
    apart, bodies, episodes, errors, exchanges, histories, logins, never_fails, reads_are_bounded,
    refusals_show, replied, reported, resend, runs_go_on, shards, texts_are_of_the_cut, together,
    trimmed, unknown,
};
pub use plans::first_lacking;
pub use rooms::Room;
pub use waiting::Waiting;

//! TCP connections, many at the same time, answered from one broker over a database file.
#![tactic(auto)]

mod asking;
mod client;
mod client_end;
mod clients;
mod deadline;
mod door;
mod entrance;
mod fault;
mod file;
mod group;
mod line;
mod listen;
mod many;
mod peer;
mod places;
mod ready;
mod received;
mod refused;
mod reply;
mod rooms;
mod serving;
mod tcp;
mod unbound;

pub use entrance::{Entrance, TakenClient};
pub use fault::ListenFault;
pub use file::serve_file;
pub use line::say;
pub use listen::ListenOptions;
pub use ready::{Unready, wait_until_ready};
pub use serving::serve_listener;
pub use tcp::TcpEntrance;
pub use unbound::{Unbound, unbound_at};

//! Only tests: of connections, of how bytes are cut into requests, of room for replies, of what is stored, and of worked
//! conversations that are written otherwise than they go.
#![tactic(auto)]

#[cfg(test)]
mod begun;
#[cfg(test)]
mod connections;
#[cfg(test)]
mod differing;
#[cfg(test)]
mod framing;
#[cfg(test)]
mod large_contexts;
#[cfg(test)]
mod listing;
#[cfg(test)]
mod plans;
#[cfg(test)]
mod rooms;
#[cfg(test)]
mod settings;
#[cfg(test)]
mod stored;
#[cfg(test)]
mod streams;
#[cfg(test)]
mod trimmed;
#[cfg(test)]
mod versions;

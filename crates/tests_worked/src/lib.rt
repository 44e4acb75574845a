//! Worked conversations, as text: reads them, and holds them with a broker.
#![tactic(auto)]

mod beside;
pub mod conversations;
mod exchanges;
pub mod held;
mod lines;
mod orders;

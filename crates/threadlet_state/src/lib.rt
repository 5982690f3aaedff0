//! The parts of a strand: its frames, the context that travels with them, the packets that go between
//! nodelets, and one silent step of its machine (docs/machine.md, "Contexts and packets").
#![tactic(auto)]

mod answering;
mod context;
mod copying;
mod fitting;
mod fitting_laws;
mod frame;
mod halting;
mod operand_stack;
mod operands;
mod outlet;
mod packet;
mod reuse;
mod silence;
mod starting;
mod stepping;

pub use answering::answer;
pub use context::Context;
pub use copying::copied;
pub use fitting::fits;
pub use fitting_laws::{law_frames_fit, law_states_fit};
pub use frame::Frame;
pub use halting::run_silent;
pub use operands::operand_count;
pub use outlet::Outlet;
pub use packet::{Body, Packet};
pub use silence::is_silent;
pub use starting::started;
pub use stepping::step_silent;

#[cfg(test)]
mod tests;

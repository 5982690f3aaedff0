//! Words of 64 bits and their operators, lists, and the plain types that all layers share.
#![tactic(auto)]

mod boxed;
mod ending;
mod format;
mod gate;
mod list;
mod name;
mod operators;
mod place;
mod rules;
mod step;
mod text;
mod ticket;
mod traffic;

pub use boxed::Box;
pub use ending::{End, SpentCause, TrapKind};
pub use format::{Format, Part};
pub use gate::{Gate, NoGate};
pub use list::List;
pub use name::Name;
pub use operators::{BinaryOp, Divide, UnaryOp, binary, unary};
pub use place::Pos;
pub use rules::Rules;
pub use step::{Counts3, Entry, NodeEvent, Step};
pub use text::{all_digits, push_decimal, read_count};
pub use ticket::Ticket;
pub use traffic::{Cell, Traffic};

#[cfg(test)]
mod tests;

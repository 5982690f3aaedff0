//! The text of code, written and read (docs/outputs.md, "Code text").
#![tactic(auto)]

mod due;
mod fault;
mod header;
mod instrs;
mod lines;
mod names;
mod reading;
mod spelling;
mod stop;
mod taking;
mod words;
mod writing;

pub use fault::{CodeFault, CodeKind, CodeRefusal};
pub use reading::read;
pub use threadlet_code::{Code, Verified};
pub use word_ops::List;
pub use writing::write;

#[cfg(test)]
mod tests;

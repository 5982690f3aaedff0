//! What a nodelet does for strands besides keeping words: it prints, and gives out addresses. Only formats and
//! pieces take memory.
#![tactic(auto)]

mod formats;
mod requests;
mod services;

pub use formats::format;
pub use requests::{AllocKind, words_granted};
pub use services::Services;

#[cfg(test)]
mod tests;

//! The words of one nodelet and its grants. Words stand in pages of 512.
#![tactic(auto)]

mod grants;
mod page;
mod pages;
mod words;

pub use words::Words;

#[cfg(test)]
mod tests;

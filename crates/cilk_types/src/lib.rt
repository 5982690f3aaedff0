//! The checker: the program that a tree is, or the first rule that is broken in it.
#![tactic(auto)]

mod counts;
mod expressions;
mod file;
mod first;
mod formats;
mod frames;
mod items;
mod judgement;
mod kinds;
mod locals;
mod lookup;
mod lower_bodies;
mod lower_builtins;
mod lower_expressions;
mod lower_functions;
mod lower_items;
mod lower_statements;
mod lower_values;
mod named;
mod named_statements;
mod names;
mod naming;
mod owned;
mod programs;
mod rules;
mod scopes;
mod spawning;
mod statements;
mod values;
mod walk;

pub use file::tree_fault;
pub use programs::check;

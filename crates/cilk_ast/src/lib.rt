//! What the front end hands on: tokens, faults, the tree as it is spelled, and the program as it is
//! checked.
#![tactic(auto)]

mod builtin;
mod fault;
mod kind;
mod program;
mod token;
mod tree;

pub use builtin::Builtin;
pub use fault::{FaultKind, TextFault, TextRefusal};
pub use kind::Kind;
pub use program::{Expr, Function, Program, Stmt};
pub use token::{Token, TokenKind};
pub use tree::{Item, Param, TExpr, TSpawn, TStmt, TValue, Tree};

//! What built-ins on their arguments are in a program.

ghost use Rattle.std.specs.Prelude.{◌≡◌, ◌∷◌, [], IfOk};
ghost use Rattle.cilk_model.specs.ExpressionLowering.{built_in as built_in_of};
ghost use Rattle.cilk_ast.specs.declared.program.Expr as program;

use crate::owned::pair;
use cilk_ast::{Builtin, Expr};
use mem_atomics::Op;
use std::alloc::{AllocError, Global};
use word_ops::{Box, List, Pos};

/// `mw_replicated_init` of an address.
pub fn init(alloc: Global, at: Pos, address: Expr, value: Expr) -> Result<Expr, AllocError>
    ensures { IfOk result (λ e. e ≡ program.Init at address value) }
{
    let address = Box::new(alloc, address)?;
    let value = Box::new(alloc, value)?;
    Ok(Expr::Init {
        pos: at,
        address,
        value,
    })
}

/// A built-in on two arguments.
pub fn on_two(alloc: Global, at: Pos, which: Builtin, p: Expr, v: Expr) -> Result<Expr, AllocError>
    ensures { IfOk result (λ e. e ≡ built_in_of at which (p ∷ v ∷ [])) }
{
    let op = match which {
        Builtin::RemoteAdd => Op::Add,
        Builtin::RemoteAnd => Op::And,
        Builtin::RemoteOr => Op::Or,
        Builtin::RemoteXor => Op::Xor,
        Builtin::RemoteMin => Op::Min,
        Builtin::RemoteMax => Op::Max,
        Builtin::AtomicAddms => {
            return Ok(Expr::Add {
                pos: at,
                address: Box::new(alloc, p)?,
                value: Box::new(alloc, v)?,
            });
        }
        Builtin::AtomicSwap => {
            return Ok(Expr::Swap {
                pos: at,
                address: Box::new(alloc, p)?,
                value: Box::new(alloc, v)?,
            });
        }
        Builtin::MwReplicatedInit => return init(alloc, at, p, v),
        _ => {
            return Ok(Expr::Alloc {
                pos: at,
                which,
                args: pair(alloc, p, v)?,
            });
        }
    };
    Ok(Expr::Post {
        pos: at,
        op,
        address: Box::new(alloc, p)?,
        value: Box::new(alloc, v)?,
    })
}

/// A built-in without arguments.
pub fn on_none(alloc: Global, at: Pos, which: Builtin) -> Expr
    ensures { result ≡ built_in_of at which [] }
{
    match which {
        Builtin::Fence => Expr::Fence,
        Builtin::NodeId => Expr::Where,
        _ => Expr::Alloc {
            pos: at,
            which,
            args: List::new(alloc),
        },
    }
}

/// A built-in on one argument.
pub fn on_one(alloc: Global, at: Pos, which: Builtin, p: Expr) -> Result<Expr, AllocError>
    ensures { IfOk result (λ e. e ≡ built_in_of at which (p ∷ [])) }
{
    match which {
        Builtin::Migrate => Ok(Expr::Move {
            pos: at,
            address: Box::new(alloc, p)?,
        }),
        _ => {
            let mut args = List::new(alloc);
            args.add(p)?;
            Ok(Expr::Alloc {
                pos: at,
                which,
                args,
            })
        }
    }
}

/// `ATOMIC_CAS`.
fn compared(alloc: Global, at: Pos, p: Expr, expected: Expr, v: Expr) -> Result<Expr, AllocError>
    ensures { IfOk result (λ e. e ≡ program.Cas at p expected v) }
{
    let address = Box::new(alloc, p)?;
    let expected = Box::new(alloc, expected)?;
    let value = Box::new(alloc, v)?;
    Ok(Expr::Cas {
        pos: at,
        address,
        expected,
        value,
    })
}

/// Three arguments in a list.
fn three(alloc: Global, p: Expr, expected: Expr, v: Expr) -> Result<List<Expr>, AllocError>
    ensures { IfOk result (λ es. es ≡ p ∷ expected ∷ v ∷ []) }
{
    let mut args = List::new(alloc);
    args.add(p)?;
    args.add(expected)?;
    args.add(v)?;
    Ok(args)
}

/// A built-in on three arguments.
pub fn on_three(
    alloc: Global,
    at: Pos,
    which: Builtin,
    p: Expr,
    expected: Expr,
    v: Expr,
) -> Result<Expr, AllocError>
    ensures { IfOk result (λ e. e ≡ built_in_of at which (p ∷ expected ∷ v ∷ [])) }
{
    match which {
        Builtin::AtomicCas => compared(alloc, at, p, expected, v),
        _ => {
            let args = three(alloc, p, expected, v)?;
            Ok(Expr::Alloc {
                pos: at,
                which,
                args,
            })
        }
    }
}

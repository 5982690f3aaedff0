ghost use Rattle.std.specs.Prelude.{◌≡◌, ◌<◌, length, slice_get};
ghost use Rattle.codegen_expr.specs.Parts.{own_size, parts_of};

use cilk_ast::Expr;

#[tactic(auto, using(crate::proofs::PartForms::parts_by_form))]
/// How many parts of `e` are evaluated before what it does itself.
pub fn parts(e: &Expr) -> usize
    ensures { result ≡ length (parts_of e.now) }
{
    match e {
        Expr::Word(_) | Expr::Slot(_) | Expr::Fence | Expr::Where => 0,
        Expr::Un { .. } | Expr::Load { .. } | Expr::Move { .. } => 1,
        Expr::Bin { .. } | Expr::Both { .. } | Expr::Either { .. } => 2,
        Expr::Post { .. } | Expr::Add { .. } | Expr::Swap { .. } | Expr::Init { .. } => 2,
        Expr::Cas { .. } => 3,
        Expr::Call { args, .. } | Expr::Print { args, .. } | Expr::Alloc { args, .. } => args.len(),
    }
}

#[tactic(auto, using(crate::proofs::PartForms::parts_by_form))]
/// Part `i` of `e`, from 0.
pub fn part(e: &Expr, i: usize) -> &Expr
    requires { i < length (parts_of e.now) }
    ensures { slice_get (parts_of e.now) i ≡ Some result.now }
{
    match e {
        Expr::Un { inner, .. } => inner,
        Expr::Load { address, .. } | Expr::Move { address, .. } => address,
        Expr::Bin { left, right, .. }
        | Expr::Both { left, right, .. }
        | Expr::Either { left, right, .. } => { if i == 0 { left } else { right } }
        Expr::Post { address, value, .. }
        | Expr::Add { address, value, .. }
        | Expr::Swap { address, value, .. }
        | Expr::Init { address, value, .. } => { if i == 0 { address } else { value } }
        Expr::Cas {
            address,
            expected,
            value,
            ..
        } => match i {
            0 => address,
            1 => expected,
            _ => value,
        },
        Expr::Call { args, .. } | Expr::Print { args, .. } | Expr::Alloc { args, .. } => args.at(i),
        Expr::Word(_) | Expr::Slot(_) | Expr::Fence | Expr::Where => e,
    }
}

#[tactic(auto, using(crate::proofs::PartForms::size_by_form))]
/// How many instructions `e` has besides those of its parts.
pub fn own_instructions(e: &Expr) -> u32
    ensures { result ≡ own_size e.now }
{
    match e {
        Expr::Both { .. } => 5,
        Expr::Either { .. } => 7,
        Expr::Post { .. }
        | Expr::Init { .. }
        | Expr::Fence
        | Expr::Move { .. }
        | Expr::Print { .. } => 2,
        Expr::Word(_) | Expr::Slot(_) | Expr::Un { .. } | Expr::Bin { .. } | Expr::Load { .. } => 1,
        Expr::Call { .. } | Expr::Add { .. } | Expr::Swap { .. } | Expr::Cas { .. } => 1,
        Expr::Where | Expr::Alloc { .. } => 1,
    }
}

//! How operators, operations and allocations are named.

ghost use Rattle.std.specs.Prelude.{◌≡◌};
ghost use Rattle.code_text.specs.Names.{unary_name, binary_name, op_name, alloc_name, flag_text};

use mem_atomics::Op;
use threadlet_code::AllocCode;
use word_ops::{BinaryOp, UnaryOp};

/// The name of an operator that takes one word.
pub fn name_of_unary(op: UnaryOp) -> &'static str
    ensures { result.now ≡ unary_name op }
{
    match op {
        UnaryOp::Neg => "neg",
        UnaryOp::Not => "not",
        UnaryOp::Flip => "flip",
    }
}

/// The name of an operator that takes two words.
pub fn name_of_binary(op: BinaryOp) -> &'static str
    ensures { result.now ≡ binary_name op }
{
    match op {
        BinaryOp::Add => "add",
        BinaryOp::Sub => "sub",
        BinaryOp::Mul => "mul",
        BinaryOp::Div => "div",
        BinaryOp::Rem => "rem",
        BinaryOp::Shl => "shl",
        BinaryOp::Shr => "shr",
        BinaryOp::Lt => "lt",
        BinaryOp::Le => "le",
        BinaryOp::Gt => "gt",
        BinaryOp::Ge => "ge",
        BinaryOp::Eq => "eq",
        BinaryOp::Ne => "ne",
        BinaryOp::And => "and",
        BinaryOp::Xor => "xor",
        BinaryOp::Or => "or",
    }
}

/// The name of an operation.
pub fn name_of_op(op: Op) -> &'static str
    ensures { result.now ≡ op_name op }
{
    match op {
        Op::Store => "store",
        Op::Add => "add",
        Op::And => "and",
        Op::Or => "or",
        Op::Xor => "xor",
        Op::Min => "min",
        Op::Max => "max",
    }
}

/// The name of an allocation.
pub fn name_of_alloc(code: AllocCode) -> &'static str
    ensures { result.now ≡ alloc_name code }
{
    match code {
        AllocCode::Striped => "striped",
        AllocCode::Blocked => "blocked",
        AllocCode::Local => "local",
        AllocCode::Replicated => "replicated",
    }
}

/// A truth as a number.
pub fn name_of_flag(flag: bool) -> &'static str
    ensures { result.now ≡ flag_text flag }
{
    if flag { "1" } else { "0" }
}

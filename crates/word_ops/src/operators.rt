ghost use Rattle.std.specs.Prelude.{◌≡◌, MatchResult, Some, None};
ghost use Rattle.word_ops.specs.Operators.{truth_of, binary_of, unary_of};

/// The operators that take two words (docs/machine.md, "Words").
#[derive(Clone, Copy, PartialEq, Eq, Debug)]
pub enum BinaryOp {
    Add,
    Sub,
    Mul,
    Div,
    Rem,
    Shl,
    Shr,
    Lt,
    Le,
    Gt,
    Ge,
    Eq,
    Ne,
    And,
    Xor,
    Or,
}

/// The operators that take one word: minus, logical not and bitwise not.
#[derive(Clone, Copy, PartialEq, Eq, Debug)]
pub enum UnaryOp {
    Neg,
    Not,
    Flip,
}

/// There is no quotient: the divisor is 0, or the quotient is no word.
#[derive(Clone, Copy, PartialEq, Eq, Debug)]
pub struct Divide;

fn truth(holds: bool) -> i64
    ensures { result ≡ truth_of holds }
{
    if holds { 1 } else { 0 }
}

/// The word that `op` makes of `x`.
pub fn unary(op: UnaryOp, x: i64) -> i64
    ensures { result ≡ unary_of op x }
{
    match op {
        UnaryOp::Neg => x.wrapping_neg(),
        UnaryOp::Not => truth(x == 0),
        UnaryOp::Flip => !x,
    }
}

/// The word that `op` makes of `x` and `y`; `Divide` exactly where a quotient or remainder of them
/// is none.
pub fn binary(op: BinaryOp, x: i64, y: i64) -> Result<i64, Divide>
    ensures { MatchResult result (λ z. binary_of op x y ≡ Some z) (λ _. binary_of op x y ≡ None) }
{
    match op {
        BinaryOp::Add => Ok(x.wrapping_add(y)),
        BinaryOp::Sub => Ok(x.wrapping_sub(y)),
        BinaryOp::Mul => Ok(x.wrapping_mul(y)),
        BinaryOp::Div => x.checked_div(y).ok_or(Divide),
        BinaryOp::Rem => x.checked_rem(y).ok_or(Divide),
        BinaryOp::Shl => Ok(x << ((y & 63) as u32)),
        BinaryOp::Shr => Ok(x >> ((y & 63) as u32)),
        BinaryOp::Lt => Ok(truth(x < y)),
        BinaryOp::Le => Ok(truth(x <= y)),
        BinaryOp::Gt => Ok(truth(x > y)),
        BinaryOp::Ge => Ok(truth(x >= y)),
        BinaryOp::Eq => Ok(truth(x == y)),
        BinaryOp::Ne => Ok(truth(x != y)),
        BinaryOp::And => Ok(x & y),
        BinaryOp::Xor => Ok(x ^ y),
        BinaryOp::Or => Ok(x | y),
    }
}

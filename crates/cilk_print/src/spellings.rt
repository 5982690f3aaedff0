//! How operators and built-ins are spelled.

ghost use Rattle.std.specs.Prelude.{◌≡◌, codes, IsTrue};
ghost use Rattle.cilk_model.specs.Signs.{binary, infix_spelling, prefix_spelling, builtin_spelling};
ghost use Rattle.cilk_model.specs.TreeTokens.{prefix as prefix_of};
ghost use Rattle.cilk_print.specs.Printing.{is_plain};

use cilk_ast::Builtin;
use word_ops::{BinaryOp, UnaryOp};

pub fn prefix(op: UnaryOp) -> &'static str
    ensures spelling { result.now ≡ codes (prefix_spelling (prefix_of op)) }
    ensures plain { IsTrue (is_plain result.now) }
{
    match op {
        UnaryOp::Neg => "-",
        UnaryOp::Not => "!",
        UnaryOp::Flip => "~",
    }
}

pub fn infix(op: BinaryOp) -> &'static str
    ensures spelling { result.now ≡ codes (infix_spelling (binary op)) }
    ensures plain { IsTrue (is_plain result.now) }
{
    match op {
        BinaryOp::Add => "+",
        BinaryOp::Sub => "-",
        BinaryOp::Mul => "*",
        BinaryOp::Div => "/",
        BinaryOp::Rem => "%",
        BinaryOp::Shl => "<<",
        BinaryOp::Shr => ">>",
        BinaryOp::Lt => "<",
        BinaryOp::Le => "<=",
        BinaryOp::Gt => ">",
        BinaryOp::Ge => ">=",
        BinaryOp::Eq => "==",
        BinaryOp::Ne => "!=",
        BinaryOp::And => "&",
        BinaryOp::Xor => "^",
        BinaryOp::Or => "|",
    }
}

pub fn builtin(which: Builtin) -> &'static str
    ensures { result.now ≡ codes (builtin_spelling which) }
{
    match which {
        Builtin::MwMalloc1dlong => "mw_malloc1dlong",
        Builtin::MwMalloc2dlong => "mw_malloc2dlong",
        Builtin::MwLocalmalloc => "mw_localmalloc",
        Builtin::MwMallocrepl => "mw_mallocrepl",
        Builtin::MwReplicatedInit => "mw_replicated_init",
        Builtin::RemoteAdd => "REMOTE_ADD",
        Builtin::RemoteAnd => "REMOTE_AND",
        Builtin::RemoteOr => "REMOTE_OR",
        Builtin::RemoteXor => "REMOTE_XOR",
        Builtin::RemoteMin => "REMOTE_MIN",
        Builtin::RemoteMax => "REMOTE_MAX",
        Builtin::AtomicAddms => "ATOMIC_ADDMS",
        Builtin::AtomicSwap => "ATOMIC_SWAP",
        Builtin::AtomicCas => "ATOMIC_CAS",
        Builtin::Fence => "FENCE",
        Builtin::Migrate => "MIGRATE",
        Builtin::NodeId => "NODE_ID",
    }
}

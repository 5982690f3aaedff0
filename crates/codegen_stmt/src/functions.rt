ghost use Rattle.std.specs.Prelude.{◌≡◌, ◌<◌, ◌≤◌, ◌+◌, ◌*◌, ◌^◌, ◌++◌, length, suc, IfOk};
ghost use Rattle.cilk_ast.specs.Nodes.{statement_nodes};
ghost use Rattle.codegen_stmt.specs.Whole.{body_code, function_code, has_each, kept_words};

use crate::appending::statement;
use crate::around::Around;
use crate::pieces::{child, children};
use crate::simple::put_return;
use crate::sizes::size;
use cilk_ast::{Function, Stmt};
use codegen_expr::{Draft, NOWHERE};
use std::alloc::{AllocError, Global};
use threadlet_code::{FuncCode, Instr};
use word_ops::{Format, List};

/// The code of a function, and the formats of the program so far, its own behind the others.
#[derive(Debug, Drop)]
pub struct Written {
    pub code: FuncCode,
    pub formats: List<Format>,
}

/// Compiles function `number`, where the functions before it have these formats.
pub fn function(
    alloc: Global,
    number: u32,
    f: &Function,
    formats: List<Format>,
) -> Result<Written, AllocError>
    requires slots { f.now.slots ≤ 2 ^ 28 }
    requires room { length formats + statement_nodes f.now.body ≤ 2 ^ 28 }
    ensures code { IfOk result (λ written. written.code ≡ function_code f.now (length formats)) }
    ensures formats { IfOk result (λ written. written.formats ≡ formats ++ (body_code f.now).formats) }
{
    let around = around(f);
    let mut draft = Draft {
        function: number,
        depth: 0,
        height: 0,
        slots: f.slots,
        body: List::new(alloc),
        places: List::new(alloc),
        formats,
    };
    draft.put(Instr::Turn, NOWHERE, 0)?;
    statement(alloc, &mut draft, around, &f.body)?;
    draft.put(Instr::Push(0), NOWHERE, 1)?;
    put_return(&mut draft, f.spawns)?;
    let slots = f.slots + kept(&f.body);
    let Draft {
        function: _,
        depth: _,
        height,
        slots: _,
        body,
        places,
        formats,
    } = draft;
    Ok(Written {
        code: FuncCode {
            params: f.params,
            slots,
            height,
            spawns: f.spawns,
            body,
            places,
        },
        formats,
    })
}

/// What stands around the body of a function: a break or a continue would lead to its end.
fn around(f: &Function) -> Around
    requires { statement_nodes f.now.body ≤ 2 ^ 28 }
    ensures { result ≡ record { spawns = f.now.spawns; kept = f.now.slots; broken = suc (body_code f.now).size; continued = suc (body_code f.now).size } }
{
    let plain = Around {
        spawns: f.spawns,
        kept: f.slots,
        broken: 0,
        continued: 0,
    };
    let out = size(plain, &f.body) + 1;
    Around {
        broken: out,
        continued: out,
        ..plain
    }
}

/// How many words a function keeps besides its slots: two for a `cilk_for`.
fn kept(body: &Stmt) -> u32
    ensures { result ≡ kept_words body.now }
{
    if is_spawning_each(body) { 2 } else { 0 }
}

/// The statement has a `cilk_for`.
fn is_spawning_each(s: &Stmt) -> bool
    ensures { result ≡ has_each s.now }
{
    if let Stmt::Each { .. } = s {
        return true;
    }
    for i in 0..children(s) {
        if is_spawning_each(child(s, i)) {
            return true;
        }
    }
    false
}

//! Which bodies of functions spawn.

ghost use Rattle.std.specs.Prelude.{◌≡◌};
ghost use Rattle.cilk_types.specs.Spawning.{spawns_in, spawns_in_list};

use cilk_ast::Stmt;

#[tactic(auto, using(crate::proofs::SpawningForms::spawning_forms))]
/// Whether a statement has a spawn or a `cilk_for`.
#[cycle(spawning)]
pub fn spawns(s: &Stmt) -> bool
    ensures { result ≡ spawns_in s.now }
{
    match s {
        Stmt::Block(body) => some_spawns(body.as_slice()),
        Stmt::If { test: _, yes, no } => spawns(yes.get()) || spawns(no.get()),
        Stmt::Loop {
            test: _,
            step,
            body,
        } => spawns(step.get()) || spawns(body.get()),
        Stmt::Spawn {
            pos: _,
            target: _,
            function: _,
            hint: _,
            args: _,
        } => true,
        Stmt::Each {
            pos: _,
            low: _,
            high: _,
            function: _,
            copies: _,
        } => true,
        Stmt::Nothing => false,
        Stmt::Eval(_) => false,
        Stmt::Set { slot: _, value: _ } => false,
        Stmt::Store {
            pos: _,
            address: _,
            value: _,
        } => false,
        Stmt::AddTo {
            pos: _,
            address: _,
            value: _,
        } => false,
        Stmt::Break => false,
        Stmt::Continue => false,
        Stmt::Return(_) => false,
        Stmt::Sync => false,
    }
}

/// Whether one of some statements does.
#[cycle(spawning)]
fn some_spawns(body: &[Stmt]) -> bool
    ensures { result ≡ spawns_in_list body.now }
{
    for i in 0..body.len() {
        if spawns(&body[i]) {
            return true;
        }
    }
    false
}

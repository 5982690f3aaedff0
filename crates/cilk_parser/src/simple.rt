//! Spawns, declarators and the statements that can stand in the head of a `for` (docs/language.md,
//! "Statements").

ghost use Rattle.std.specs.Prelude.{◌≡◌, ◌≤◌, ◌<◌, ◌&&◌, length, false, IfOk, OnOk};
ghost use Rattle.cilk_model.specs.GrammarForms.{expr, perhaps, origin, spawn, value, initial, local, more_locals, simple, change};
ghost use Rattle.cilk_model.specs.Tests.{starts};
ghost use Rattle.cilk_model.specs.OpenEnds.{ends_open};
ghost use Rattle.cilk_parser.specs.Gives.{Gives, Appends};
ghost use Rattle.cilk_parser.specs.Kinds.{is_spawn};
ghost use Rattle.cilk_parser.specs.Read.{read};

use crate::cursor::Cursor;
use crate::stop::Stop;
use cilk_ast::{TExpr, TSpawn, TStmt, TValue};
use word_ops::{List, Pos};

impl<'a> Cursor<'a> {
    /// An expression.
    pub fn expr(&mut self) -> Result<TExpr, Stop>
        ensures reads { Gives result self.new (read expr self.old) }
        ensures shrinks { length self.new ≤ length self.old }
    {
        self.expression(10)
    }

    /// An expression, or nothing before a `;`.
    pub fn perhaps(&mut self) -> Result<Option<TExpr>, Stop>
        ensures reads { Gives result self.new (read perhaps self.old) }
        ensures shrinks { length self.new ≤ length self.old }
    {
        if self.at_mark(b";") {
            return Ok(None);
        }
        let there = self.expr()?;
        Ok(Some(there))
    }

    /// A word that starts a spawn is next.
    pub fn at_spawn(&self) -> bool
        ensures { result ≡ starts is_spawn self.now }
    {
        self.at_word(b"cilk_spawn") || self.at_word(b"cilk_spawn_at")
    }

    /// `cilk_spawn`, or `cilk_spawn_at` with its hint.
    fn origin(&mut self) -> Result<(Pos, Option<TExpr>), Stop>
        ensures reads { Gives result self.new (read origin self.old) }
        ensures shrinks { length self.new ≤ length self.old }
    {
        if let Some(pos) = self.word(b"cilk_spawn") {
            return Ok((pos, None));
        }
        let pos = self.take_word(b"cilk_spawn_at")?;
        self.take_mark(b"(")?;
        let hint = self.expr()?;
        self.take_mark(b")")?;
        Ok((pos, Some(hint)))
    }

    /// A spawn of a call.
    pub fn spawn(&mut self) -> Result<TSpawn, Stop>
        ensures reads { Gives result self.new (read spawn self.old) }
        ensures shrinks { length self.new ≤ length self.old }
    {
        let (pos, hint) = self.origin()?;
        let (name_pos, name) = self.take_name()?;
        self.take_mark(b"(")?;
        let args = self.args()?;
        self.take_mark(b")")?;
        Ok(TSpawn {
            pos,
            hint,
            name_pos,
            name,
            args,
        })
    }

    /// A spawn is next, where it may be.
    fn spawns(&self, may_spawn: bool) -> bool
        ensures { result ≡ (may_spawn && starts is_spawn self.now) }
    {
        may_spawn && self.at_spawn()
    }

    /// What stands behind a `=`: a spawn only where it may.
    fn value(&mut self, may_spawn: bool) -> Result<TValue, Stop>
        ensures reads { Gives result self.new (read (value may_spawn) self.old) }
        ensures shrinks { length self.new ≤ length self.old }
    {
        if self.spawns(may_spawn) {
            let spawn = self.spawn()?;
            Ok(TValue::Spawned(spawn))
        } else {
            let plain = self.expr()?;
            Ok(TValue::Plain(plain))
        }
    }

    /// The initial value of a local, if it has one.
    fn initial(&mut self) -> Result<Option<TValue>, Stop>
        ensures reads { Gives result self.new (read initial self.old) }
        ensures shrinks { length self.new ≤ length self.old }
    {
        if self.mark(b"=").is_none() {
            return Ok(None);
        }
        let value = self.value(true)?;
        Ok(Some(value))
    }

    /// A declarator of a local.
    pub fn local(&mut self) -> Result<TStmt, Stop>
        ensures reads { Gives result self.new (read local self.old) }
        ensures shrinks { length self.new ≤ length self.old }
        ensures strict { OnOk result (length self.new < length self.old) }
    {
        let kind = self.star();
        let (pos, name) = self.take_name()?;
        let value = self.initial()?;
        Ok(TStmt::Local {
            pos,
            kind,
            name,
            value,
        })
    }

    /// Puts the declarators that are left behind what there is, and takes the `;`.
    pub fn more_locals(&mut self, all: &mut List<TStmt>) -> Result<(), Stop>
        ensures reads { Appends result all.old all.new self.new (read more_locals self.old) }
        ensures shrinks { length self.new ≤ length self.old }
    {
        'more: while self.mark(b",").is_some() {
            let next = self.local()?;
            all.add(next)?;
        }
        self.take_mark(b";")?;
        Ok(())
    }

    /// An expression statement, an assignment or a step, without its `;`; a spawn behind its `=` only
    /// where it may.
    pub fn simple(&mut self, may_spawn: bool) -> Result<TStmt, Stop>
        ensures reads { Gives result self.new (read (simple may_spawn) self.old) }
        ensures shrinks { length self.new ≤ length self.old }
        ensures closed { IfOk result (λ s. ends_open s ≡ false) }
    {
        if self.mark(b"++").is_some() {
            let left = self.unary()?;
            return Ok(TStmt::Up { left });
        }
        if self.mark(b"--").is_some() {
            let left = self.unary()?;
            return Ok(TStmt::Down { left });
        }
        let left = self.expr()?;
        self.change(may_spawn, left)
    }

    /// What stands behind the expression of such a statement.
    fn change(&mut self, may_spawn: bool, left: TExpr) -> Result<TStmt, Stop>
        ensures reads { Gives result self.new (read (change may_spawn left) self.old) }
        ensures shrinks { length self.new ≤ length self.old }
        ensures closed { IfOk result (λ s. ends_open s ≡ false) }
    {
        if let Some(pos) = self.mark(b"=") {
            let value = self.value(may_spawn)?;
            return Ok(TStmt::Assign { pos, left, value });
        }
        if let Some(pos) = self.mark(b"+=") {
            let value = self.expr()?;
            return Ok(TStmt::AddTo { pos, left, value });
        }
        if self.mark(b"++").is_some() {
            return Ok(TStmt::Up { left });
        }
        if self.mark(b"--").is_some() {
            return Ok(TStmt::Down { left });
        }
        Ok(TStmt::Eval(left))
    }
}

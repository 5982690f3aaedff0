//! The parts in the heads of loops (docs/language.md, "Statements").

ghost use Rattle.std.specs.Prelude.{◌≡◌, ◌≤◌, ◌<◌, length, ℕ, List, OnOk};
ghost use Rattle.word_ops.specs.declared.place.Pos.{Pos};
ghost use Rattle.cilk_ast.specs.declared.tree.TStmt.{TStmt, For};
ghost use Rattle.cilk_model.specs.GrammarForms.{init, step, up, statement};
ghost use Rattle.cilk_parser.specs.Gives.{Gives, Leads};
ghost use Rattle.cilk_parser.specs.Parsers.{Parser, ◌▹◌};
ghost use Rattle.cilk_parser.specs.Parts.{read_init_local, read_counter, read_low, read_tested, read_high, read_stepped};
ghost use Rattle.cilk_parser.specs.Reading.{read_for};
ghost use Rattle.cilk_parser.specs.Read.{read};

use crate::cursor::Cursor;
use crate::stop::Stop;
use cilk_ast::{TExpr, TStmt, TValue};
use word_ops::{List, Pos};

/// What stands in the brackets of a `for`.
#[derive(Debug, Drop)]
pub struct ForHead {
    pub init: Option<TStmt>,
    pub test: Option<TExpr>,
    pub step: Option<TStmt>,
}

impl<'a> Cursor<'a> {
    /// The first part of a `for`, or nothing before its `;`.
    fn init(&mut self) -> Result<Option<TStmt>, Stop>
        ensures reads { Gives result self.new (read init self.old) }
        ensures shrinks { length self.new ≤ length self.old }
    {
        if self.at_mark(b";") {
            return Ok(None);
        }
        if self.word(b"long").is_some() {
            let local = self.init_local()?;
            return Ok(Some(local));
        }
        let simple = self.simple(false)?;
        Ok(Some(simple))
    }

    /// The local of a `for`, behind its `long`.
    fn init_local(&mut self) -> Result<TStmt, Stop>
        ensures reads { Gives result self.new (read_init_local self.old) }
        ensures shrinks { length self.new ≤ length self.old }
    {
        let kind = self.star();
        let (pos, name) = self.take_name()?;
        self.take_mark(b"=")?;
        let value = self.expr()?;
        Ok(TStmt::Local {
            pos,
            kind,
            name,
            value: Some(TValue::Plain(value)),
        })
    }

    /// The last part of a `for`, or nothing before its `)`.
    fn step(&mut self) -> Result<Option<TStmt>, Stop>
        ensures reads { Gives result self.new (read step self.old) }
        ensures shrinks { length self.new ≤ length self.old }
    {
        if self.at_mark(b")") {
            return Ok(None);
        }
        let simple = self.simple(false)?;
        Ok(Some(simple))
    }

    /// The step of a `cilk_for`: the name in it.
    fn up(&mut self) -> Result<(Pos, List<u8>), Stop>
        ensures reads { Gives result self.new (read up self.old) }
        ensures shrinks { length self.new ≤ length self.old }
    {
        if self.at_name() {
            let name = self.take_name()?;
            self.take_mark(b"++")?;
            return Ok(name);
        }
        self.take_mark(b"++")?;
        self.take_name()
    }

    /// The head of a `for`, its brackets with it.
    pub fn for_head(&mut self) -> Result<ForHead, Stop>
        ensures reads { Leads result self.new (λ h. read statement ▹ λ s. For h.init h.test h.step s) (read_for read self.old) }
        ensures shrinks { length self.new ≤ length self.old }
        ensures strict { OnOk result (length self.new < length self.old) }
    {
        self.take_mark(b"(")?;
        let init = self.init()?;
        self.take_mark(b";")?;
        let test = self.perhaps()?;
        self.take_mark(b";")?;
        let step = self.step()?;
        self.take_mark(b")")?;
        Ok(ForHead { init, test, step })
    }

    /// The variable of a `cilk_for`, with the `(` and `long` before it and the `=` behind it.
    pub fn counter(&mut self) -> Result<(Pos, List<u8>), Stop>
        ensures reads { (f : (Pos × List ℕ) → Parser TStmt) → Leads result self.new f (read_counter f self.old) }
        ensures shrinks { length self.new ≤ length self.old }
        ensures strict { OnOk result (length self.new < length self.old) }
    {
        self.take_mark(b"(")?;
        self.take_word(b"long")?;
        let name = self.take_name()?;
        self.take_mark(b"=")?;
        Ok(name)
    }

    /// The bound from which a `cilk_for` counts, and the `;` behind it.
    pub fn low(&mut self) -> Result<TExpr, Stop>
        ensures reads { (f : TExpr → Parser TStmt) → Leads result self.new f (read_low f self.old) }
        ensures shrinks { length self.new ≤ length self.old }
    {
        let low = self.expr()?;
        self.take_mark(b";")?;
        Ok(low)
    }

    /// The name in the test of a `cilk_for`, and the `<` behind it.
    pub fn tested(&mut self) -> Result<(Pos, List<u8>), Stop>
        ensures reads { (f : Pos × List ℕ → Parser TStmt) → Leads result self.new f (read_tested f self.old) }
        ensures shrinks { length self.new ≤ length self.old }
    {
        let name = self.take_name()?;
        self.take_mark(b"<")?;
        Ok(name)
    }

    /// The bound up to which a `cilk_for` counts, and the `;` behind it.
    pub fn high(&mut self) -> Result<TExpr, Stop>
        ensures reads { (f : TExpr → Parser TStmt) → Leads result self.new f (read_high f self.old) }
        ensures shrinks { length self.new ≤ length self.old }
    {
        let high = self.expression(3)?;
        self.take_mark(b";")?;
        Ok(high)
    }

    /// The name in the step of a `cilk_for`, and the `)` behind it.
    pub fn stepped(&mut self) -> Result<(Pos, List<u8>), Stop>
        ensures reads { (f : Pos × List ℕ → Parser TStmt) → Leads result self.new f (read_stepped f self.old) }
        ensures shrinks { length self.new ≤ length self.old }
    {
        let name = self.up()?;
        self.take_mark(b")")?;
        Ok(name)
    }
}

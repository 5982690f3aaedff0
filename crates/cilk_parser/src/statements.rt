//! Statements (docs/language.md, "Statements").

ghost use Rattle.std.specs.Prelude.{◌≡◌, ◌≤◌, ◌<◌, length, true, false, IfOk, IfErr, OnOk};
ghost use Rattle.cilk_ast.specs.declared.tree.TExpr.{TExpr};
ghost use Rattle.cilk_ast.specs.declared.tree.TStmt.{TStmt};
ghost use Rattle.cilk_model.specs.GrammarForms.{statement, block, body};
ghost use Rattle.cilk_model.specs.OpenEnds.{ends_open};
ghost use Rattle.cilk_model.specs.Tests.{starts, is_mark, is_word};
ghost use Rattle.cilk_parser.specs.Gives.{Gives, Leads, Passes, prefixed};
ghost use Rattle.cilk_parser.specs.Parsers.{Parser};
ghost use Rattle.cilk_parser.specs.Parts.{read_test};
ghost use Rattle.cilk_parser.specs.Reading.{read_leave, read_effect, read_if, read_while, read_for, read_cilk_for};
ghost use Rattle.cilk_parser.specs.Read.{read};

use crate::cursor::Cursor;
use crate::loops::ForHead;
use crate::stop::Stop;
use cilk_ast::{TExpr, TStmt};
use word_ops::{Box, List};

impl<'a> Cursor<'a> {
    /// A statement.
    #[cycle(statements)]
    fn statement(&mut self) -> Result<TStmt, Stop>
        ensures reads { Gives result self.new (read statement self.old) }
        ensures shrinks { length self.new ≤ length self.old }
        ensures strict { OnOk result (length self.new < length self.old) }
        ensures nearest { IfOk result (λ s. starts (is_word "else") self.new ≡ true → ends_open s ≡ false) }
    {
        if self.at_mark(b"{") {
            return self.block();
        }
        if self.mark(b";").is_some() {
            return Ok(TStmt::Empty);
        }
        if self.word(b"if").is_some() {
            return self.if_statement();
        }
        if self.word(b"while").is_some() {
            return self.while_loop();
        }
        if self.word(b"for").is_some() {
            return self.for_loop();
        }
        if self.word(b"cilk_for").is_some() {
            return self.cilk_for_loop();
        }
        self.leave()
    }

    /// A statement that goes elsewhere, or one that starts with none of the words of statements.
    fn leave(&mut self) -> Result<TStmt, Stop>
        ensures reads { Gives result self.new (read_leave read self.old) }
        ensures shrinks { length self.new ≤ length self.old }
        ensures strict { OnOk result (length self.new < length self.old) }
        ensures closed { IfOk result (λ s. ends_open s ≡ false) }
    {
        if let Some(pos) = self.word(b"break") {
            self.take_mark(b";")?;
            return Ok(TStmt::Break { pos });
        }
        if let Some(pos) = self.word(b"continue") {
            self.take_mark(b";")?;
            return Ok(TStmt::Continue { pos });
        }
        if let Some(pos) = self.word(b"return") {
            let value = self.perhaps()?;
            self.take_mark(b";")?;
            return Ok(TStmt::Return { pos, value });
        }
        if self.word(b"cilk_sync").is_some() {
            self.take_mark(b";")?;
            return Ok(TStmt::Sync);
        }
        self.effect()
    }

    /// A statement that starts with an expression, a step or a spawn.
    fn effect(&mut self) -> Result<TStmt, Stop>
        ensures reads { Gives result self.new (read_effect read self.old) }
        ensures shrinks { length self.new ≤ length self.old }
        ensures strict { OnOk result (length self.new < length self.old) }
        ensures closed { IfOk result (λ s. ends_open s ≡ false) }
    {
        if self.at_spawn() {
            let spawn = self.spawn()?;
            self.take_mark(b";")?;
            return Ok(TStmt::Spawn(spawn));
        }
        let simple = self.simple(true)?;
        self.take_mark(b";")?;
        Ok(simple)
    }

    /// What a word stands before: `(`, an expression and `)`.
    fn test(&mut self) -> Result<TExpr, Stop>
        ensures reads { (f : TExpr → Parser TStmt) → Leads result self.new f (read_test f self.old) }
        ensures shrinks { length self.new ≤ length self.old }
        ensures strict { OnOk result (length self.new < length self.old) }
    {
        self.take_mark(b"(")?;
        let test = self.expr()?;
        self.take_mark(b")")?;
        Ok(test)
    }

    /// A statement that belongs to a word before it.
    #[cycle(statements)]
    fn nested(&mut self) -> Result<Box<TStmt>, Stop>
        ensures reads { Gives result self.new (read statement self.old) }
        ensures shrinks { length self.new ≤ length self.old }
        ensures strict { OnOk result (length self.new < length self.old) }
        ensures nearest { IfOk result (λ s. starts (is_word "else") self.new ≡ true → ends_open s ≡ false) }
    {
        let statement = self.statement()?;
        self.boxed(statement)
    }

    /// Behind `if`. An `else` belongs to the nearest `if` without one.
    #[cycle(statements)]
    fn if_statement(&mut self) -> Result<TStmt, Stop>
        ensures reads { Gives result self.new (read_if read self.old) }
        ensures shrinks { length self.new ≤ length self.old }
        ensures strict { OnOk result (length self.new < length self.old) }
        ensures nearest { IfOk result (λ s. starts (is_word "else") self.new ≡ true → ends_open s ≡ false) }
    {
        let test = self.test()?;
        let yes = self.nested()?;
        if self.word(b"else").is_none() {
            return Ok(TStmt::If {
                test,
                yes,
                no: None,
            });
        }
        let no = self.nested()?;
        Ok(TStmt::If {
            test,
            yes,
            no: Some(no),
        })
    }

    /// Behind `while`.
    #[cycle(statements)]
    fn while_loop(&mut self) -> Result<TStmt, Stop>
        ensures reads { Gives result self.new (read_while read self.old) }
        ensures shrinks { length self.new ≤ length self.old }
        ensures strict { OnOk result (length self.new < length self.old) }
        ensures nearest { IfOk result (λ s. starts (is_word "else") self.new ≡ true → ends_open s ≡ false) }
    {
        let test = self.test()?;
        let body = self.nested()?;
        Ok(TStmt::While { test, body })
    }

    /// Behind `for`.
    #[cycle(statements)]
    fn for_loop(&mut self) -> Result<TStmt, Stop>
        ensures reads { Gives result self.new (read_for read self.old) }
        ensures shrinks { length self.new ≤ length self.old }
        ensures strict { OnOk result (length self.new < length self.old) }
        ensures nearest { IfOk result (λ s. starts (is_word "else") self.new ≡ true → ends_open s ≡ false) }
    {
        let ForHead { init, test, step } = self.for_head()?;
        let first = self.boxed_perhaps(init)?;
        let last = self.boxed_perhaps(step)?;
        let body = self.nested()?;
        Ok(TStmt::For {
            init: first,
            test,
            step: last,
            body,
        })
    }

    /// The statement, on the heap.
    fn boxed_perhaps(&self, statement: Option<TStmt>) -> Result<Option<Box<TStmt>>, Stop>
        ensures ok { IfOk result (λ boxed. boxed ≡ statement) }
        ensures err { IfErr result (λ stop. stop ≡ Stop.OutOfMemory) }
    {
        match statement {
            Some(there) => {
                let boxed = self.boxed(there)?;
                Ok(Some(boxed))
            }
            None => Ok(None),
        }
    }

    /// Behind `cilk_for`.
    #[cycle(statements)]
    fn cilk_for_loop(&mut self) -> Result<TStmt, Stop>
        ensures reads { Gives result self.new (read_cilk_for read self.old) }
        ensures shrinks { length self.new ≤ length self.old }
        ensures strict { OnOk result (length self.new < length self.old) }
        ensures nearest { IfOk result (λ s. starts (is_word "else") self.new ≡ true → ends_open s ≡ false) }
    {
        let first = self.counter()?;
        let low = self.low()?;
        let second = self.tested()?;
        let high = self.high()?;
        let third = self.stepped()?;
        let body = self.nested()?;
        let (pos, name) = first;
        Ok(TStmt::CilkFor {
            pos,
            name,
            low,
            second,
            high,
            third,
            body,
        })
    }

    /// Statements in `{` and `}`.
    #[cycle(statements)]
    pub fn block(&mut self) -> Result<TStmt, Stop>
        ensures reads { Gives result self.new (read block self.old) }
        ensures shrinks { length self.new ≤ length self.old }
        ensures strict { OnOk result (length self.new < length self.old) }
        ensures closed { IfOk result (λ s. ends_open s ≡ false) }
    {
        self.take_mark(b"{")?;
        let body = self.body()?;
        self.take_mark(b"}")?;
        Ok(TStmt::Block(body))
    }

    /// The declarations and statements up to a `}`.
    #[cycle(statements)]
    fn body(&mut self) -> Result<List<TStmt>, Stop>
        ensures reads { Gives result self.new (read body self.old) }
        ensures shrinks { length self.new ≤ length self.old }
    {
        let mut all = self.list();
        'parts: while !self.at_mark(b"}") {
            self.part(&mut all)?;
        }
        Ok(all)
    }

    /// Puts what the next part of a block declares, or a statement, behind what there is.
    #[cycle(statements)]
    fn part(&mut self, all: &mut List<TStmt>) -> Result<(), Stop>
        requires { starts (is_mark "}") self.old ≡ false }
        ensures reads { Passes result self.new (prefixed all.old (read body self.old)) (prefixed all.new (read body self.new)) }
        ensures shrinks { length self.new ≤ length self.old }
        ensures strict { OnOk result (length self.new < length self.old) }
    {
        if self.word(b"long").is_some() {
            let local = self.local()?;
            all.add(local)?;
            self.more_locals(all)
        } else {
            let statement = self.statement()?;
            all.add(statement)?;
            Ok(())
        }
    }
}

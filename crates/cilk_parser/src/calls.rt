//! Operands: primary expressions and what they are made of (docs/language.md, "Expressions").

ghost use Rattle.std.specs.Prelude.{◌≡◌, ◌≤◌, length};
ghost use Rattle.cilk_model.specs.GrammarForms.{primary, args, more_args};
ghost use Rattle.cilk_parser.specs.Gives.{Gives, Appends};
ghost use Rattle.cilk_parser.specs.Parts.{read_name, read_builtin, read_print, read_replicated_init, read_init_at};
ghost use Rattle.cilk_parser.specs.Read.{read};

use crate::cursor::Cursor;
use crate::stop::Stop;
use cilk_ast::{Builtin, TExpr};
use word_ops::{List, Pos};

impl<'a> Cursor<'a> {
    /// A literal, a name, a call or an expression in brackets.
    #[cycle(expressions)]
    pub fn primary(&mut self) -> Result<TExpr, Stop>
        ensures reads { Gives result self.new (read primary self.old) }
        ensures shrinks { length self.new ≤ length self.old }
    {
        if let Some(number) = self.number() {
            return Ok(number);
        }
        if self.at_name() {
            return self.named();
        }
        if let Some((pos, which)) = self.builtin() {
            return self.builtin_call(pos, which);
        }
        if let Some(pos) = self.word(b"printf") {
            return self.print(pos);
        }
        if let Some(pos) = self.word(b"mw_replicated_init") {
            return self.replicated_init(pos);
        }
        let pos = self.take_mark(b"(")?;
        let part = self.expression(10)?;
        self.take_mark(b")")?;
        let inner = self.boxed(part)?;
        Ok(TExpr::Paren { pos, inner })
    }

    /// A variable, or a call.
    #[cycle(expressions)]
    fn named(&mut self) -> Result<TExpr, Stop>
        ensures reads { Gives result self.new (read_name self.old) }
        ensures shrinks { length self.new ≤ length self.old }
    {
        let (pos, name) = self.take_name()?;
        if self.mark(b"(").is_none() {
            return Ok(TExpr::Var { pos, name });
        }
        let args = self.args()?;
        self.take_mark(b")")?;
        Ok(TExpr::Call { pos, name, args })
    }

    /// A call of a built-in, behind its word.
    #[cycle(expressions)]
    fn builtin_call(&mut self, pos: Pos, which: Builtin) -> Result<TExpr, Stop>
        ensures reads { Gives result self.new (read_builtin pos which self.old) }
        ensures shrinks { length self.new ≤ length self.old }
    {
        self.take_mark(b"(")?;
        let args = self.args()?;
        self.take_mark(b")")?;
        Ok(TExpr::Builtin { pos, which, args })
    }

    /// A call of `printf`, behind its word.
    #[cycle(expressions)]
    fn print(&mut self, pos: Pos) -> Result<TExpr, Stop>
        ensures reads { Gives result self.new (read_print pos self.old) }
        ensures shrinks { length self.new ≤ length self.old }
    {
        self.take_mark(b"(")?;
        let (text_pos, format) = self.take_text()?;
        let mut args = self.list();
        self.more_args(&mut args)?;
        self.take_mark(b")")?;
        Ok(TExpr::Print {
            pos,
            text_pos,
            format,
            args,
        })
    }

    /// A call of `mw_replicated_init`, behind its word.
    #[cycle(expressions)]
    fn replicated_init(&mut self, pos: Pos) -> Result<TExpr, Stop>
        ensures reads { Gives result self.new (read_replicated_init pos self.old) }
        ensures shrinks { length self.new ≤ length self.old }
    {
        self.take_mark(b"(")?;
        if self.mark(b"&").is_some() {
            return self.init_at(pos);
        }
        let mut args = self.list();
        let address = self.expression(10)?;
        args.add(address)?;
        self.take_mark(b",")?;
        let value = self.expression(10)?;
        args.add(value)?;
        self.take_mark(b")")?;
        Ok(TExpr::Builtin {
            pos,
            which: Builtin::MwReplicatedInit,
            args,
        })
    }

    /// The name of a replicated global and a value, behind the `&`.
    #[cycle(expressions)]
    fn init_at(&mut self, pos: Pos) -> Result<TExpr, Stop>
        ensures reads { Gives result self.new (read_init_at pos self.old) }
        ensures shrinks { length self.new ≤ length self.old }
    {
        let (name_pos, name) = self.take_name()?;
        self.take_mark(b",")?;
        let part = self.expression(10)?;
        self.take_mark(b")")?;
        let value = self.boxed(part)?;
        Ok(TExpr::InitAt {
            pos,
            name_pos,
            name,
            value,
        })
    }

    /// The arguments of a call, up to its `)`.
    #[cycle(expressions)]
    pub fn args(&mut self) -> Result<List<TExpr>, Stop>
        ensures reads { Gives result self.new (read args self.old) }
        ensures shrinks { length self.new ≤ length self.old }
    {
        let mut all = self.list();
        if self.at_mark(b")") {
            return Ok(all);
        }
        let first = self.expression(10)?;
        all.add(first)?;
        self.more_args(&mut all)?;
        Ok(all)
    }

    /// Puts the arguments that are left behind those there are.
    #[cycle(expressions)]
    fn more_args(&mut self, all: &mut List<TExpr>) -> Result<(), Stop>
        ensures reads { Appends result all.old all.new self.new (read more_args self.old) }
        ensures shrinks { length self.new ≤ length self.old }
    {
        'more: while self.mark(b",").is_some() {
            let next = self.expression(10)?;
            all.add(next)?;
        }
        Ok(())
    }
}

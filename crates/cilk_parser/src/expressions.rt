//! Expressions: operators, casts and indexes (docs/language.md, "Expressions").

ghost use Rattle.std.specs.Prelude.{◌≡◌, ◌≤◌, ◌<◌, length, Ok, IfOk, IfErr};
ghost use Rattle.cilk_model.specs.GrammarForms.{star, expression, postfix, indexes};
ghost use Rattle.cilk_model.specs.Signs.{prefixed as applied, joined as joined_by};
ghost use Rattle.cilk_parser.specs.Gives.{Gives};
ghost use Rattle.cilk_parser.specs.Meanings.{meant_before, meant_between};
ghost use Rattle.cilk_parser.specs.Parts.{read_cast};
ghost use Rattle.cilk_parser.specs.Reading.{read_bracketed};
ghost use Rattle.cilk_parser.specs.Read.{read};

use crate::cursor::Cursor;
use crate::signs::{Infix, Prefix};
use crate::stop::Stop;
use cilk_ast::{Kind, TExpr};
use word_ops::Pos;

impl<'a> Cursor<'a> {
    /// A `*`, or none: what a declaration or a cast is of.
    pub fn star(&mut self) -> Kind
        ensures reads { read star self.old ≡ Ok (result, self.new) }
        ensures shrinks { length self.new ≤ length self.old }
    {
        match self.mark(b"*") {
            Some(_) => Kind::Ptr,
            None => Kind::Long,
        }
    }

    /// The operator on its operand.
    fn prefixed(&self, pos: Pos, op: Prefix, operand: TExpr) -> Result<TExpr, Stop>
        ensures ok { IfOk result (λ x. x ≡ applied (meant_before op) pos operand) }
        ensures err { IfErr result (λ stop. stop ≡ Stop.OutOfMemory) }
    {
        let inner = self.boxed(operand)?;
        match op {
            Prefix::Unary(op) => Ok(TExpr::Un { pos, op, inner }),
            Prefix::Contents => Ok(TExpr::Deref { pos, inner }),
        }
    }

    /// The operator between its operands.
    fn joined(&self, pos: Pos, op: Infix, x: TExpr, y: TExpr) -> Result<TExpr, Stop>
        ensures ok { IfOk result (λ z. z ≡ joined_by (meant_between op) pos x y) }
        ensures err { IfErr result (λ stop. stop ≡ Stop.OutOfMemory) }
    {
        let left = self.boxed(x)?;
        let right = self.boxed(y)?;
        match op {
            Infix::Either => Ok(TExpr::Either { pos, left, right }),
            Infix::Both => Ok(TExpr::Both { pos, left, right }),
            Infix::Binary(op) => Ok(TExpr::Bin {
                pos,
                op,
                left,
                right,
            }),
        }
    }

    /// An expression whose operators between operands all bind less loosely than this: 10 for any, 0
    /// for none. Operators of one looseness join to the left.
    #[cycle(expressions)]
    pub fn expression(&mut self, looseness: u32) -> Result<TExpr, Stop>
        ensures reads { Gives result self.new (read (expression looseness) self.old) }
        ensures shrinks { length self.new ≤ length self.old }
    {
        if looseness == 0 {
            return self.unary();
        }
        let mut left = self.expression(looseness - 1)?;
        'further: while let Some((pos, op)) = self.infix(looseness - 1) {
            let right = self.expression(looseness - 1)?;
            left = self.joined(pos, op, left, right)?;
        }
        Ok(left)
    }

    /// An operand with the operators and casts before it.
    #[cycle(expressions)]
    pub fn unary(&mut self) -> Result<TExpr, Stop>
        ensures reads { Gives result self.new (read (expression 0) self.old) }
        ensures shrinks { length self.new ≤ length self.old }
    {
        if let Some((pos, op)) = self.prefix() {
            let operand = self.unary()?;
            return self.prefixed(pos, op, operand);
        }
        match self.mark(b"(") {
            Some(pos) => self.bracketed(pos),
            None => self.postfix(),
        }
    }

    /// Behind a `(`: a cast, or an expression in brackets with its indexes.
    #[cycle(expressions)]
    fn bracketed(&mut self, pos: Pos) -> Result<TExpr, Stop>
        ensures reads { Gives result self.new (read_bracketed read pos self.old) }
        ensures shrinks { length self.new ≤ length self.old }
    {
        if self.word(b"long").is_some() {
            return self.cast(pos);
        }
        let part = self.expression(10)?;
        self.take_mark(b")")?;
        let inner = self.boxed(part)?;
        self.indexes(TExpr::Paren { pos, inner })
    }

    /// Behind the `long` of a cast.
    #[cycle(expressions)]
    fn cast(&mut self, pos: Pos) -> Result<TExpr, Stop>
        ensures reads { Gives result self.new (read_cast pos self.old) }
        ensures shrinks { length self.new ≤ length self.old }
    {
        let kind = self.star();
        self.take_mark(b")")?;
        let operand = self.unary()?;
        let inner = self.boxed(operand)?;
        Ok(TExpr::Cast { pos, kind, inner })
    }

    /// A primary expression with its indexes.
    #[cycle(expressions)]
    fn postfix(&mut self) -> Result<TExpr, Stop>
        ensures reads { Gives result self.new (read postfix self.old) }
        ensures shrinks { length self.new ≤ length self.old }
    {
        let first = self.primary()?;
        self.indexes(first)
    }

    /// The indexes behind an expression.
    #[cycle(expressions)]
    fn indexes(&mut self, whole: TExpr) -> Result<TExpr, Stop>
        ensures reads { Gives result self.new (read (indexes whole) self.old) }
        ensures shrinks { length self.new ≤ length self.old }
    {
        let mut indexed = whole;
        'more: while let Some(pos) = self.mark(b"[") {
            let place = self.expression(10)?;
            self.take_mark(b"]")?;
            let base = self.boxed(indexed)?;
            let index = self.boxed(place)?;
            indexed = TExpr::Index { pos, base, index };
        }
        Ok(indexed)
    }
}

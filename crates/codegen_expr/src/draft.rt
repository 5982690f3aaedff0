ghost use Rattle.std.specs.Prelude.{◌≡◌, ◌<◌, ◌+◌, ◌^◌, suc, [], ◌∷◌, length, OnOk};
ghost use Rattle.codegen_expr.specs.Gains.{Gains};
ghost use Rattle.codegen_expr.specs.Piece.{judging, line, skipping};

use std::alloc::AllocError;
use threadlet_code::Instr;
use word_ops::{Format, List, Pos};

/// The place of an instruction that has none in the text.
pub const NOWHERE: Pos = Pos { line: 0, column: 0 };

/// A function that is being compiled: its number, the height of its stack now and at most so far, how many
/// slots it has, its lines so far, and the formats of the whole program so far.
#[derive(Debug, Drop)]
pub struct Draft {
    pub function: u32,
    pub depth: u32,
    pub height: u32,
    pub slots: u32,
    pub body: List<Instr>,
    pub places: List<Pos>,
    pub formats: List<Format>,
}

impl Draft {
    /// Appends an instruction with its place in the text; behind it the stack has `depth` words.
    pub fn put(&mut self, instr: Instr, pos: Pos, depth: u32) -> Result<(), AllocError>
        ensures { OnOk result (Gains self.old self.new (line pos instr ∷ []) [] depth depth) }
    {
        self.body.add(instr)?;
        self.places.add(pos)?;
        self.depth = depth;
        self.height = self.height.max(depth);
        Ok(())
    }

    /// The place of the next instruction.
    pub fn place(&self) -> u32
        requires { length self.now.body < 2 ^ 32 }
        ensures { result ≡ length self.now.body }
    {
        self.body.len() as u32
    }

    /// Appends the test in front of a second part of `size` instructions, which is left out for 0; the stack
    /// then has `depth` words.
    pub fn put_test(&mut self, pos: Pos, size: u32, depth: u32) -> Result<(), AllocError>
        requires { length self.old.body + size + 4 < 2 ^ 32 }
        ensures { OnOk result (Gains self.old self.new (line pos (Instr.JumpZero (suc (length self.old.body) + size + 3)) ∷ []) [] depth depth) }
    {
        let judge = self.place() + 1 + size;
        self.put(Instr::JumpZero(judge + 3), pos, depth)
    }

    #[tactic(auto, using(crate::proofs::Gained::three_gained))]
    /// Appends the test in front of a second part of `size` instructions, which is left out for another word
    /// than 0, and then leaves 1; the stack has `depth` words without that.
    pub fn put_skip(&mut self, pos: Pos, size: u32, depth: u32) -> Result<(), AllocError>
        requires place { length self.old.body + size + 7 < 2 ^ 32 }
        requires depth { depth + 1 < 2 ^ 32 }
        ensures { let second = suc (suc (suc (length self.old.body))) in OnOk result (Gains self.old self.new (skipping pos second (second + size + 4)) [] depth (depth + 1)) }
    {
        let second = self.place() + 3;
        self.put(Instr::JumpZero(second), pos, depth)?;
        self.put(Instr::Push(1), pos, depth + 1)?;
        self.put(Instr::Jump(second + size + 4), pos, depth)?;
        Ok(())
    }

    #[tactic(auto, using(crate::proofs::Gained::four_gained))]
    /// Appends the end of a choice: 1 where the word on top is not 0, and else 0. The stack has `depth`
    /// words without that.
    pub fn put_judge(&mut self, pos: Pos, depth: u32) -> Result<(), AllocError>
        requires place { length self.old.body + 4 < 2 ^ 32 }
        requires depth { depth + 1 < 2 ^ 32 }
        ensures { OnOk result (Gains self.old self.new (judging pos (length self.old.body)) [] (depth + 1) (depth + 1)) }
    {
        let place = self.place();
        self.put(Instr::JumpZero(place + 3), pos, depth)?;
        self.put(Instr::Push(1), pos, depth + 1)?;
        self.put(Instr::Jump(place + 4), pos, depth)?;
        self.put(Instr::Push(0), pos, depth + 1)?;
        Ok(())
    }
}

//! The action before which a context stands: what of it decides whether it can be done, and where.

ghost use Rattle.std.specs.Prelude.{◌≡◌, ◌≤◌, if◌then◌else◌, ℕ, true, IsTrue, length, is_some, Some, None, option_map};
ghost use Rattle.word_ops.specs.declared.ending.TrapKind.TheVariants as trap;
ghost use Rattle.word_ops.specs.Operators.{binary_of};
ghost use Rattle.world_model.specs.Activation.{word_at};
ghost use Rattle.threadlet_code.specs.declared.code.Code as code;
ghost use Rattle.threadlet_code.specs.Breaches.{is_sound};
ghost use Rattle.threadlet_code.specs.Operands.{own_operands, alloc_operands};
ghost use Rattle.threadlet_code.specs.Machine.{action_of, memory_action, step};
ghost use Rattle.threadlet_code.specs.Machine as machine;
ghost use Rattle.threadlet_state.specs.Activations.{state_of};
ghost use Rattle.threadlet_state.specs.Fit.{frames_fit};
ghost use Rattle.nodelet_core.specs.code.Dues.{due_of, request_of};
ghost use Rattle.nodelet_core.specs.declared.due.Due.TheVariants as due;
ghost use Rattle.nodelet_core.specs.code.Operands.{needs};
ghost use Rattle.core_model.specs.Runs.{action_in};

use crate::operands::top_words;
use mem_atomics::{FetchOp, Op};
use threadlet_code::{AllocCode, Code, Instr, Verified};
use threadlet_state::{Context, Frame, operand_count};
use word_ops::{BinaryOp, List, Pos, TrapKind, binary};

/// The most activations that a strand has at a time.
const MAX_DEPTH: usize = 256;

/// A request for fresh words.
#[derive(Clone, Copy, PartialEq, Eq, Debug)]
pub(crate) enum Request {
    Striped { words: i64 },
    Blocked { blocks: i64, words: i64 },
    Local { pos: Pos, words: i64, address: i64 },
    Replicated { words: i64 },
}

/// Where a child is to be born: at the owner of an address.
#[derive(Clone, Copy, PartialEq, Eq, Debug)]
pub(crate) struct Hint {
    pub pos: Pos,
    pub address: i64,
}

/// The action that a strand is due, without what it prints and what it hands to a child.
#[derive(Clone, Copy, PartialEq, Eq, Debug)]
pub(crate) enum Due {
    Turn,
    Load {
        pos: Pos,
        address: i64,
    },
    Issue {
        pos: Pos,
        op: Op,
        address: i64,
        word: i64,
    },
    Fetch {
        pos: Pos,
        fetch: FetchOp,
        address: i64,
    },
    Init {
        pos: Pos,
        address: i64,
        word: i64,
    },
    Fence,
    Move {
        pos: Pos,
        address: i64,
    },
    Where,
    Print,
    Alloc {
        request: Request,
    },
    Spawn {
        hint: Option<Hint>,
    },
    Sync,
    End {
        value: i64,
    },
    Trap {
        pos: Pos,
        kind: TrapKind,
    },
}

/// The action before which a context stands; None exactly where a silent instruction comes next. Takes no
/// memory.
pub(crate) fn next_due(context: &Context, code: &Verified) -> Option<Due>
    requires fits { frames_fit code.now.code context.now.frames ≡ true }
    ensures { result ≡ option_map due_of (action_in (step code.now.code (state_of code.now.code context.now.frames))) }
{
    due_of_frames(&context.frames, code.code())
}

/// The same of the frames of a context.
fn due_of_frames(frames: &List<Frame>, code: &Code) -> Option<Due>
    requires sound { IsTrue (is_sound code.now) }
    requires fits { frames_fit code.now frames.now ≡ true }
    ensures { result ≡ option_map due_of (action_in (step code.now (state_of code.now frames.now))) }
{
    let depth = frames.len();
    let frame = frames.at(depth - 1);
    let f = code.functions.at(frame.function as usize);
    let pos = *f.places.at(frame.at as usize);
    match *f.body.at(frame.at as usize) {
        Instr::Print(_) => Some(Due::Print),
        Instr::Call(_) => {
            if depth < MAX_DEPTH {
                return None;
            }
            let kind = TrapKind::Depth;
            Some(Due::Trap { pos, kind })
        }
        Instr::Return => {
            if 1 < depth {
                return None;
            }
            Some(ended(top_words(frame, f, 1)))
        }
        Instr::Bin(op) => undivided(pos, op, top_words(frame, f, 2)),
        instr => due_on(pos, instr, top_words(frame, f, operand_count(code, instr))),
    }
}

/// The end of a strand that returns a word.
fn ended(words: &[i64]) -> Due
    requires one { length words.now ≡ 1 }
    ensures { result ≡ due.End (word_at words.now 0) }
{
    Due::End { value: words[0] }
}

/// The trap of an operator that has no value at two words.
fn undivided(pos: Pos, op: BinaryOp, words: &[i64]) -> Option<Due>
    requires two { length words.now ≡ 2 }
    ensures { result ≡ (if is_some (binary_of op (word_at words.now 0) (word_at words.now 1)) then None else Some (due.Trap pos trap.Divide)) }
{
    match binary(op, words[0], words[1]) {
        Ok(_) => None,
        Err(_) => {
            let kind = TrapKind::Divide;
            Some(Due::Trap { pos, kind })
        }
    }
}

/// The action that an instruction makes of its operands, if any.
fn due_on(pos: Pos, instr: Instr, words: &[i64]) -> Option<Due>
    requires enough { needs instr ≤ length words.now }
    ensures { (code : code.Code) (depth : ℕ) → result ≡ option_map due_of (action_of code pos depth instr words.now) }
{
    match instr {
        Instr::Turn => Some(Due::Turn),
        Instr::Fence => Some(Due::Fence),
        Instr::Where => Some(Due::Where),
        Instr::Print(_) => Some(Due::Print),
        Instr::Sync => Some(Due::Sync),
        Instr::Alloc(kind) => Some(Due::Alloc {
            request: requested(pos, kind, words),
        }),
        Instr::Spawn { hinted: false, .. } => Some(Due::Spawn { hint: None }),
        Instr::Spawn { hinted: true, .. } => {
            let address = words[0];
            Some(Due::Spawn {
                hint: Some(Hint { pos, address }),
            })
        }
        instr => access(pos, instr, words),
    }
}

/// The action on a word that an instruction makes of its operands, if any.
fn access(pos: Pos, instr: Instr, words: &[i64]) -> Option<Due>
    requires enough { own_operands instr ≤ length words.now }
    ensures { result ≡ option_map due_of (memory_action pos instr words.now) }
{
    match instr {
        Instr::Load => Some(Due::Load {
            pos,
            address: words[0],
        }),
        Instr::Post(op) => Some(Due::Issue {
            pos,
            op,
            address: words[0],
            word: words[1],
        }),
        Instr::Init => Some(Due::Init {
            pos,
            address: words[0],
            word: words[1],
        }),
        Instr::Move => Some(Due::Move {
            pos,
            address: words[0],
        }),
        Instr::FetchAdd => Some(fetch(pos, FetchOp::Add { by: words[1] }, words[0])),
        Instr::FetchSwap => Some(fetch(pos, FetchOp::Swap { to: words[1] }, words[0])),
        Instr::FetchCas => {
            let (expected, to) = (words[1], words[2]);
            Some(fetch(pos, FetchOp::Cas { expected, to }, words[0]))
        }
        _ => None,
    }
}

fn fetch(pos: Pos, fetch: FetchOp, address: i64) -> Due
    ensures { result ≡ due.Fetch pos fetch address }
{
    Due::Fetch {
        pos,
        fetch,
        address,
    }
}

/// What an allocation asks for.
fn requested(pos: Pos, kind: AllocCode, words: &[i64]) -> Request
    requires enough { alloc_operands kind ≤ length words.now }
    ensures { result ≡ request_of (machine.request_of pos kind words.now) }
{
    match kind {
        AllocCode::Striped => Request::Striped { words: words[0] },
        AllocCode::Blocked => Request::Blocked {
            blocks: words[0],
            words: words[1],
        },
        AllocCode::Local => Request::Local {
            pos,
            words: words[0],
            address: words[1],
        },
        AllocCode::Replicated => Request::Replicated { words: words[0] },
    }
}

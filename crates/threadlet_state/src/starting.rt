//! Activations and strands at their start.

ghost use Rattle.std.specs.Prelude.{◌≡◌, ◌≤◌, true, IfOk, Some, None, length, slice_get};
ghost use Rattle.threadlet_code.specs.Machine as machine;
ghost use Rattle.threadlet_code.specs.Operands.{params_of};
ghost use Rattle.threadlet_code.specs.Running as running;
ghost use Rattle.threadlet_state.specs.Activations.{activation, state_of};
ghost use Rattle.threadlet_state.specs.Fit.{IsLaidOut, frames_fit};

use crate::context::Context;
use crate::frame::Frame;
use std::alloc::{AllocError, Global};
use threadlet_code::{FuncCode, Verified};
use word_ops::{List, Name, Ticket};

/// A strand of the name `name` at its birth at the nodelet `home`, about to run a function on as many
/// arguments as it has parameters (docs/machine.md, "Contexts and packets").
pub fn started(
    alloc: Global,
    code: &Verified,
    function: u32,
    args: &[i64],
    name: Name,
    home: u32,
    ticket: Option<Ticket>,
) -> Result<Context, AllocError>
    requires args { params_of code.now.code function ≡ Some (length args.now) }
    ensures state { IfOk result (λ context. state_of code.now.code context.frames ≡ running.started function (slice_get code.now.code.functions function) args.now) }
    ensures fits { IfOk result (λ context. frames_fit code.now.code context.frames ≡ true) }
    ensures rest { IfOk result (λ context. context ≡ record { name = name; home = home; place = home; ticket = ticket; frames = context.frames; late = None }) }
{
    let text = code.code();
    let f = text.functions.at(function as usize);
    let mut frames = List::new(alloc);
    frames.add(entered(alloc, function, f, args)?)?;
    Ok(Context {
        name,
        home,
        place: home,
        ticket,
        frames,
        late: None,
    })
}

/// A new frame of the function `f`, whose number is `function`; takes memory once.
pub fn entered(
    alloc: Global,
    function: u32,
    f: &FuncCode,
    args: &[i64],
) -> Result<Frame, AllocError>
    requires { length args.now ≤ f.now.slots }
    ensures entered { IfOk result (λ frame. activation f.now.slots frame ≡ machine.entered function f.now args.now) }
    ensures laid { IfOk result (λ frame. IsLaidOut f.now frame) }
    ensures empty { IfOk result (λ frame. frame.top ≡ 0) }
{
    let size = f.slots as usize + f.height as usize;
    let mut words = Vec::with_capacity(alloc, size)?;
    words.extend_from_slice(args)?;
    words.resize(size, 0)?;
    Ok(Frame {
        function,
        at: 0,
        words: List::from_vec(words),
        top: 0,
        targets: List::new(alloc),
    })
}

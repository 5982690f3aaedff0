//! Copies of contexts.

ghost use Rattle.std.specs.Prelude.{◌≡◌, ◌≤◌, ◌+◌, ◌∷◌, ◌++◌, length, take, drop, IfOk, OnOk};

use crate::context::Context;
use crate::frame::Frame;
use crate::reuse::refill;
use std::alloc::AllocError;
use word_ops::List;

/// A copy of a context, in the room of frames that are no longer needed; takes memory where that is too little
/// (docs/machine.md, "Contexts and packets").
pub fn copied(context: &Context, room: List<Frame>) -> Result<Context, AllocError>
    ensures { IfOk result (λ copy. copy ≡ context.now) }
{
    let frames = copied_frames(context.frames.as_slice(), room)?;
    Ok(Context {
        name: context.name,
        home: context.home,
        place: context.place,
        ticket: context.ticket,
        frames,
        late: context.late,
    })
}

/// Copies of frames, in the room of others.
fn copied_frames(frames: &[Frame], room: List<Frame>) -> Result<List<Frame>, AllocError>
    ensures { IfOk result (λ copies. copies ≡ frames.now) }
{
    let mut copies = shortened(room, frames.len());
    for (i, frame) in frames.iter().enumerate() {
        put_copy(&mut copies, i, frame)?;
    }
    Ok(copies)
}

/// The first of a list of frames, so many at most; the others are dropped.
fn shortened(frames: List<Frame>, most: usize) -> List<Frame>
    ensures { result ≡ take most frames }
{
    let mut frames = frames.into_vec();
    frames.truncate(most);
    List::from_vec(frames)
}

/// Puts a copy of a frame at a place of others, or behind them; a frame that is there lends its memory.
fn put_copy(copies: &mut List<Frame>, i: usize, frame: &Frame) -> Result<(), AllocError>
    requires { i ≤ length copies.old }
    ensures { OnOk result (copies.new ≡ take i copies.old ++ frame.now ∷ drop (i + 1) copies.old) }
{
    if i < copies.len() {
        overwrite(copies.at_mut(i), frame)
    } else {
        copies.add(copy_of(frame)?)
    }
}

/// A copy of a frame, in memory of its own.
fn copy_of(frame: &Frame) -> Result<Frame, AllocError>
    ensures { IfOk result (λ copy. copy ≡ frame.now) }
{
    let alloc = frame.words.allocator();
    let mut copy = Frame {
        function: frame.function,
        at: frame.at,
        words: List::new(alloc),
        top: frame.top,
        targets: List::new(alloc),
    };
    overwrite(&mut copy, frame)?;
    Ok(copy)
}

/// Makes a frame a copy of another, in the memory that it has where that is enough.
fn overwrite(copy: &mut Frame, frame: &Frame) -> Result<(), AllocError>
    ensures { OnOk result (copy.new ≡ frame.now) }
{
    refill(&mut copy.words, frame.words.as_slice())?;
    refill(&mut copy.targets, frame.targets.as_slice())?;
    copy.function = frame.function;
    copy.at = frame.at;
    copy.top = frame.top;
    Ok(())
}

//! When an action can be done, and where: what decides it is what a context sees where it stands.

ghost use Rattle.std.specs.Prelude.{◌≡◌, ◌<◌, ◌≤◌, true, false};
ghost use Rattle.world_model.specs.Action as act;
ghost use Rattle.world_model.specs.Sight as world;
ghost use Rattle.nodelet_core.specs.code.Dues.{asked, seen, way_seen};
ghost use Rattle.core_model.specs.Runs as runs;

use crate::due::{Due, Hint, Request};
use data_layout::{owner, valid, view};
use word_ops::{Pos, TrapKind};

/// The view of which each nodelet has its own copy.
const REPLICATED: i64 = 31;

/// What a context sees at a nodelet: this nodelet and the one where it was born; that nothing of its own is
/// under way; the turns served here; of its deepest activation, that it has no child to join, and that all
/// of these have ended; and its late position.
#[derive(Clone, Copy, Debug)]
pub(crate) struct Sight {
    pub here: u32,
    pub home: u32,
    pub clear: bool,
    pub served: u64,
    pub childless: bool,
    pub all_ended: bool,
    pub late: Option<Pos>,
}

/// What becomes of an action: it is refused, is done here, must be done at another nodelet, or must wait.
#[derive(Clone, Copy, PartialEq, Eq, Debug)]
pub(crate) enum Way {
    Refused { kind: TrapKind, pos: Pos },
    DoneHere,
    SentTo { nodelet: u32 },
    Waits,
}

/// The way of an action, which is free where no record of its own forbids it.
pub(crate) fn way_of(n: u32, turns: u64, sight: &Sight, due: Due, free: bool) -> Way
    requires nodelets { (1 ≤ n) × (n ≤ 64) }
    requires here { sight.now.here < n }
    requires home { sight.now.home < n }
    ensures { way_seen result ≡ runs.way_of n turns (seen sight.now) (asked due) free }
{
    if is_bad(n, due) {
        return Way::Refused {
            kind: TrapKind::BadAddress,
            pos: pos_of(due),
        };
    }
    let ready = can_act(n, turns, sight, due) && free;
    match sight.late {
        Some(pos) if ready && is_leaving(n, sight, due) => Way::Refused {
            kind: TrapKind::OutOfBounds,
            pos,
        },
        _ => way_if(n, sight, due, ready),
    }
}

/// The way of an action that is not refused, by whether it is ready.
fn way_if(n: u32, sight: &Sight, due: Due, ready: bool) -> Way
    requires nodelets { (1 ≤ n) × (n ≤ 64) }
    requires here { sight.now.here < n }
    requires good { world.is_bad n (asked due) ≡ false }
    ensures { way_seen result ≡ runs.way_by n (seen sight.now) (asked due) ready }
{
    let nodelet = place_after(n, sight, due);
    if nodelet == sight.here {
        if ready { Way::DoneHere } else { Way::Waits }
    } else if sight.clear {
        Way::SentTo { nodelet }
    } else {
        Way::Waits
    }
}

/// An action is bad where its address or its hint is not valid, and an Init besides where its word is not
/// replicated.
fn is_bad(n: u32, due: Due) -> bool
    requires nodelets { (1 ≤ n) × (n ≤ 64) }
    ensures { result ≡ world.is_bad n (asked due) }
{
    match due {
        Due::Load { address, .. }
        | Due::Issue { address, .. }
        | Due::Fetch { address, .. }
        | Due::Move { address, .. } => !valid(address, n),
        Due::Init { address, .. } => !(valid(address, n) && view(address) == REPLICATED),
        Due::Alloc {
            request: Request::Local { address, .. },
        } => !valid(address, n),
        Due::Spawn { hint: Some(hint) } => !valid(hint.address, n),
        _ => false,
    }
}

/// The place of the strand after an action that is not bad.
fn place_after(n: u32, sight: &Sight, due: Due) -> u32
    requires nodelets { (1 ≤ n) × (n ≤ 64) }
    requires here { sight.now.here < n }
    requires good { world.is_bad n (asked due) ≡ false }
    ensures { result ≡ world.place_after n (seen sight.now) (asked due) }
{
    match due {
        Due::Load { address, .. }
        | Due::Fetch { address, .. }
        | Due::Move { address, .. }
        | Due::Alloc {
            request: Request::Local { address, .. },
        } => owner(address, sight.here, n),
        Due::Print | Due::Alloc { .. } => 0,
        Due::Sync if !sight.childless => sight.home,
        _ => sight.here,
    }
}

/// Whether an action that is not bad is ready.
fn can_act(n: u32, turns: u64, sight: &Sight, due: Due) -> bool
    requires nodelets { (1 ≤ n) × (n ≤ 64) }
    requires here { sight.now.here < n }
    requires good { world.is_bad n (asked due) ≡ false }
    ensures { result ≡ world.can_act n turns (seen sight.now) (asked due) }
{
    match due {
        Due::Turn => sight.served < turns,
        Due::Fence | Due::Spawn { .. } | Due::End { .. } => sight.clear,
        Due::Issue { .. } | Due::Init { .. } | Due::Where | Due::Trap { .. } => true,
        Due::Sync => can_sync(sight),
        _ => place_after(n, sight, due) == sight.here || sight.clear,
    }
}

/// Whether a Sync is ready.
fn can_sync(sight: &Sight) -> bool
    ensures { result ≡ world.can_sync (seen sight.now) 0 }
{
    let at_home = sight.here == sight.home;
    sight.childless
        || (sight.all_ended && (at_home || sight.clear))
        || (sight.clear && sight.late.is_some() && !at_home)
}

/// Whether a ready action that is not bad is a Fence, a Spawn or an End, or changes the place.
fn is_leaving(n: u32, sight: &Sight, due: Due) -> bool
    requires nodelets { (1 ≤ n) × (n ≤ 64) }
    requires here { sight.now.here < n }
    requires good { world.is_bad n (asked due) ≡ false }
    ensures { result ≡ world.is_leaving n (seen sight.now) (asked due) }
{
    match due {
        Due::Fence | Due::Spawn { .. } | Due::End { .. } => true,
        _ => place_after(n, sight, due) != sight.here,
    }
}

/// The place in the text that an action carries, and 0:0 where it carries none.
pub(crate) fn pos_of(due: Due) -> Pos
    ensures { result ≡ act.pos_of (asked due) }
{
    match due {
        Due::Load { pos, .. }
        | Due::Issue { pos, .. }
        | Due::Fetch { pos, .. }
        | Due::Init { pos, .. }
        | Due::Move { pos, .. }
        | Due::Trap { pos, .. }
        | Due::Alloc {
            request: Request::Local { pos, .. },
        }
        | Due::Spawn {
            hint: Some(Hint { pos, .. }),
        } => pos,
        _ => Pos { line: 0, column: 0 },
    }
}

ghost use Rattle.std.specs.Prelude.{◌≡◌, ◌<◌, true, Some, IfOk};
ghost use Rattle.threadlet_code.specs.Operands.{params_of};
ghost use Rattle.threadlet_code.specs.Verdict.{IsShort};
ghost use Rattle.nodelet_core.specs.Kept.{all_fit};

use super::{Next, Nodelet};
use crate::standing::Standing;
use std::alloc::{AllocError, Global};
use threadlet_code::{Code, FuncCode, Instr, Verified, verify};
use threadlet_state::{Body, Packet, started};
use word_ops::{List, Name, Pos, Rules, Ticket};

const HERE: Pos = Pos { line: 1, column: 1 };

const MAIN: Name = Name {
    nodelet: 0,
    number: 0,
};

/// Main returns 0 after its Turn.
fn returns(alloc: Global) -> Result<Code, AllocError>
    ensures short { IfOk result IsShort }
    ensures main { IfOk result (λ code. params_of code 0 ≡ Some 0) }
{
    let mut body = List::new(alloc);
    body.extend_from_slice(&[Instr::Turn, Instr::Push(0), Instr::Return])?;
    let mut places = List::new(alloc);
    places.extend_from_slice(&[HERE, HERE, HERE])?;
    let mut functions = List::new(alloc);
    functions.add(FuncCode {
        params: 0,
        slots: 0,
        height: 1,
        spawns: false,
        body,
        places,
    })?;
    Ok(Code {
        functions,
        main: 0,
        formats: List::new(alloc),
        globals: 0,
        replicated: 0,
    })
}

/// Nodelet `number` of two before any event.
fn nodelet(alloc: Global, number: u32, turns: u64) -> Result<(Nodelet, Verified), AllocError>
    requires { number < 2 }
    ensures fits { IfOk result (λ made. all_fit made.1.code made.0 ≡ true) }
    ensures main { IfOk result (λ made. params_of made.1.code 0 ≡ Some 0) }
{
    match verify(alloc, returns(alloc)?) {
        Err(_) => Err(AllocError),
        Ok(code) => {
            let nodelet = Nodelet::new(alloc, number, 2, turns, &code, Rules::Checked)?;
            Ok((nodelet, code))
        }
    }
}

/// A result for main, sent to nodelet `home`.
fn result_for(home: u32) -> Packet {
    let ticket = Ticket {
        parent: MAIN,
        home,
        depth: 1,
        order: 0,
    };
    Packet {
        stamp: 1,
        body: Body::Done { ticket, result: 7 },
    }
}

#[test]
fn a_result_comes_from_elsewhere_to_its_home(rt: HostRuntime) -> Result<(), AllocError> {
    let (nodelet, code) = nodelet(rt.alloc(), 0, 1)?;
    assert!(rt; nodelet.can_take(&code, 1, &result_for(0)));
    assert!(rt; !nodelet.can_take(&code, 0, &result_for(0)));
    assert!(rt; !nodelet.can_take(&code, 2, &result_for(0)));
    assert!(rt; !nodelet.can_take(&code, 1, &result_for(1)));
    Ok(())
}

#[test]
fn main_stands_at_nodelet_0(rt: HostRuntime) -> Result<(), AllocError> {
    let (first, _) = nodelet(rt.alloc(), 0, 1)?;
    let (second, _) = nodelet(rt.alloc(), 1, 1)?;
    assert_eq!(rt; first.names().as_slice(), [MAIN].as_slice());
    assert_eq!(rt; second.names().len(), 0);
    assert_eq!(rt; first.entries().len(), 0);
    assert!(rt; first.ended().is_none() && first.trapped().is_none());
    Ok(())
}

#[test]
fn a_turn_is_served_while_one_is_left(rt: HostRuntime) -> Result<(), AllocError> {
    let (nodelet, code) = nodelet(rt.alloc(), 0, 1)?;
    assert!(rt; nodelet.next(&code, MAIN) == Next::Goes);
    assert!(rt; !nodelet.lacks_turn(&code));
    Ok(())
}

#[test]
fn a_strand_waits_where_no_turn_is_left(rt: HostRuntime) -> Result<(), AllocError> {
    let (nodelet, code) = nodelet(rt.alloc(), 0, 0)?;
    assert!(rt; nodelet.next(&code, MAIN) == Next::Waits);
    assert!(rt; nodelet.lacks_turn(&code));
    Ok(())
}

#[test]
fn contexts_stand_in_the_order_of_their_names(rt: HostRuntime) -> Result<(), AllocError> {
    let alloc = rt.alloc();
    let (_, code) = nodelet(alloc, 0, 1)?;
    let child = Name {
        nodelet: 0,
        number: 1,
    };
    let mut standing = Standing::new(alloc);
    standing.add(started(alloc, &code, 0, &[], child, 0, None)?)?;
    standing.add(started(alloc, &code, 0, &[], MAIN, 0, None)?)?;
    assert_eq!(rt; standing.names().as_slice(), [MAIN, child].as_slice());
    standing.make_late(child, HERE);
    assert!(rt; standing.leave(MAIN).is_some());
    assert!(rt; standing.leave(MAIN).is_none());
    let late = match standing.find(child) {
        Some(context) => context.late,
        None => None,
    };
    assert_eq!(rt; late, Some(HERE));
    Ok(())
}

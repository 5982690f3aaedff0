ghost use Rattle.std.specs.Prelude.{◌≡◌, ◌<◌, ◌^◌, length, true};
ghost use Rattle.sim_core.specs.Kept.{core_fits};
ghost use Rattle.sim_core.specs.Advanced.{IsReached};

use super::Core;
use code_text::{CodeRefusal, read};
use std::alloc::{AllocError, Global};
use threadlet_code::{Verified, verify};
use word_ops::{Name, Rules};

const MAIN: Name = Name {
    nodelet: 0,
    number: 0,
};

/// The code of a text.
fn verified(alloc: Global, text: &[u8]) -> Result<Verified, AllocError>
    requires { length text.now < 2 ^ 32 }
{
    match read(alloc, text) {
        Ok(code) => match verify(alloc, code) {
            Ok(code) => Ok(code),
            Err(_) => Err(AllocError),
        },
        Err(CodeRefusal::OutOfMemory) => Err(AllocError),
        Err(CodeRefusal::Fault(_)) => Err(AllocError),
    }
}

/// Main returns 0 after its Turn.
fn returns(alloc: Global) -> Result<Verified, AllocError> {
    let text =
        b"emu-code 1\nglobals 0\nreplicated 0\nformats 0\nfunctions 1\nmain 0\nfunction params 0 slots 0 height 1 spawns 0 length 3\n0:0 turn\n0:0 push 0\n0:0 return\nend\n";
    verified(alloc, text)
}

#[test]
fn before_any_event_main_alone_is_named(rt: HostRuntime) -> Result<(), AllocError> {
    let code = returns(rt.alloc())?;
    for n in [1, 2, 64] {
        let core = Core::new(rt.alloc(), n, 10, &code, Rules::Checked)?;
        let names = core.census()?;
        assert_eq!(rt; names.as_slice(), [MAIN].as_slice());
    }
    Ok(())
}

/// Main stores 1 and then 2 in word 0 of nodelet 2, and returns the word, from nodelet 0.
fn stores(alloc: Global) -> Result<Verified, AllocError> {
    let text =
        b"emu-code 1\nglobals 0\nreplicated 0\nformats 0\nfunctions 1\nmain 0\nfunction params 0 slots 0 height 3 spawns 0 length 10\n1:1 turn\n1:2 push 37383395344384\n1:3 dup\n1:4 push 1\n1:5 post store\n1:6 dup\n1:7 push 2\n1:8 post store\n1:9 load\n1:10 return\nend\n";
    verified(alloc, text)
}

/// Events happen until none can, of those that can the first or the last; the answer is how many.
fn play(core: &mut Core, code: &Verified, first: bool) -> Result<u64, AllocError>
    requires reached { IsReached code.now.code core.old }
    requires fits { core_fits code.now.code core.old ≡ true }
    ensures count { core.new.count ≡ core.old.count }
{
    for happened in 0..1000 {
        let events = core.legal_events(code)?;
        let all = events.as_slice();
        let next = if first { all.first() } else { all.last() };
        let Some(event) = next else {
            return Ok(happened);
        };
        if core.legal(code, *event) {
            core.event(code, *event)?;
        }
    }
    Ok(1000)
}

#[test]
fn main_waits_for_its_stores_and_ends_where_it_loads(rt: HostRuntime) -> Result<(), AllocError> {
    for first in [true, false] {
        let code = stores(rt.alloc())?;
        let mut core = Core::new(rt.alloc(), 8, 10, &code, Rules::Loose)?;
        // A Turn, two posts, the way to the Load, the Load, the end; a take for each store, for each word that one is
        // done, and for main.
        assert_eq!(rt; play(&mut core, &code, first)?, 11);
        assert_eq!(rt; core.node(0).ended(), None);
        assert_eq!(rt; core.node(2).ended(), Some(2));
        assert_eq!(rt; core.node(2).words().load(37_383_395_344_384), 2);
        assert_eq!(rt; core.node(2).counts().applied, 2);
        assert_eq!(rt; core.node(0).counts().sent_contexts, 1);
        assert_eq!(rt; core.node(0).served(), 1);
        assert_eq!(rt; core.census()?.len(), 0);
    }
    Ok(())
}

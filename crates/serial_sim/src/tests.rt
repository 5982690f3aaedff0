ghost use Rattle.std.specs.Prelude.{◌<◌, ◌^◌, length};

use super::run_serial;
use code_text::{CodeRefusal, read};
use std::alloc::{AllocError, Global};
use threadlet_code::{Verified, verify};
use word_ops::{Cell, End, Rules};

/// The code of a text.
fn verified(alloc: Global, text: &[u8]) -> Result<Verified, AllocError>
    requires { length text.now < 2 ^ 32 }
{
    match read(alloc, text) {
        Ok(code) => match verify(alloc, code) {
            Ok(code) => Ok(code),
            Err(_) => Err(AllocError),
        },
        Err(CodeRefusal::OutOfMemory) => Err(AllocError),
        Err(CodeRefusal::Fault(_)) => Err(AllocError),
    }
}

/// Main stores 1 and then 2 in word 0 of nodelet 2, and returns the word, from nodelet 0.
fn stores(alloc: Global) -> Result<Verified, AllocError> {
    let text =
        b"emu-code 1\nglobals 0\nreplicated 0\nformats 0\nfunctions 1\nmain 0\nfunction params 0 slots 0 height 3 spawns 0 length 10\n1:1 turn\n1:2 push 37383395344384\n1:3 dup\n1:4 push 1\n1:5 post store\n1:6 dup\n1:7 push 2\n1:8 post store\n1:9 load\n1:10 return\nend\n";
    verified(alloc, text)
}

#[test]
fn whatever_the_seed_the_last_store_stays(rt: HostRuntime) -> Result<(), AllocError> {
    for seed in [0, 1, 2, u64::MAX] {
        let code = stores(rt.alloc())?;
        let ran = run_serial(rt.alloc(), &code, 8, 10, seed, Rules::Loose)?;
        let word = Cell {
            nodelet: 2,
            address: 37_383_395_344_384,
            word: 2,
        };
        assert_eq!(rt; ran.end, End::Done { value: 2 });
        assert_eq!(rt; ran.cells.as_slice(), [word].as_slice());
        assert_eq!(rt; ran.out.len(), 0);
        // At nodelet 0 a Turn, two posts, the way to the Load, and a take for each word that a store is done; at
        // nodelet 2 a take for each store and for main, the Load, and the end.
        for (k, part) in ran.parts.as_slice().iter().enumerate() {
            let events = match k {
                0 => 6,
                2 => 5,
                _ => 0,
            };
            assert_eq!(rt; part.len(), events);
        }
        assert_eq!(rt; ran.traffic.moves.as_slice().get(2), Some(&1));
        assert_eq!(rt; ran.traffic.posts.as_slice().get(2), Some(&2));
        assert_eq!(rt;
            ran.traffic.applied.as_slice(),
            [0, 0, 2, 0, 0, 0, 0, 0].as_slice()
        );
    }
    Ok(())
}

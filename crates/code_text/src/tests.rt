ghost use Rattle.std.specs.Prelude.{◌<◌, ◌^◌, length};

use super::{CodeFault, CodeKind, CodeRefusal, List, read, write};
use crate::writing::write_code;
use std::alloc::{AllocError, Global};
use threadlet_code::{Rule, VerifyRefusal, verify};

const FOURTEEN: &str =
    "emu-code 1\nglobals 0\nreplicated 0\nformats 1\nformat \"%ld\\n\"\nfunctions 1\nmain 0\nfunction params 0 slots 0 height 1 spawns 0 length 5\n1:1 turn\n1:1 push 14\n1:1 print 0\n1:1 push 0\n1:1 return\nend\n";

const TURNLESS: &str =
    "emu-code 1\nglobals 0\nreplicated 0\nformats 1\nformat \"%ld\\n\"\nfunctions 1\nmain 0\nfunction params 0 slots 0 height 1 spawns 0 length 4\n1:1 push 14\n1:1 print 0\n1:1 push 0\n1:1 return\nend\n";

const HEAD: &str =
    "emu-code 1\nglobals 4294967295\nreplicated 2\nformats 3\nformat \"\"\nformat \"\\\\ \\\"%%\\\"\"\nformat \" ~%ld%ldld\\nn\"\nfunctions 2\nmain 1\n";

const SILENT: &str =
    "function params 1 slots 3 height 4294967295 spawns 1 length 44\n0:0 push -9223372036854775808\n1:2 push 9223372036854775807\n1:2 get 0\n1:2 set 4294967295\n1:2 pop\n1:2 dup\n1:2 un neg\n1:2 un not\n1:2 un flip\n1:2 bin add\n1:2 bin sub\n1:2 bin mul\n1:2 bin div\n1:2 bin rem\n1:2 bin shl\n1:2 bin shr\n1:2 bin lt\n1:2 bin le\n1:2 bin gt\n1:2 bin ge\n1:2 bin eq\n1:2 bin ne\n1:2 bin and\n1:2 bin xor\n1:2 bin or\n1:2 jump 7\n1:2 jumpzero 8\n1:2 call 9\n1:2 return\n";

const LOUD: &str =
    "1:2 turn\n1:2 load\n1:2 post store\n1:2 post add\n1:2 post and\n1:2 post or\n1:2 post xor\n1:2 post min\n1:2 post max\n1:2 fetchadd\n1:2 fetchswap\n1:2 fetchcas\n1:2 init\n1:2 fence\n1:2 move\n";

const LAST: &str =
    "function params 0 slots 0 height 0 spawns 0 length 10\n4294967295:4294967295 where\n9:9 print 2\n9:9 alloc striped\n9:9 alloc blocked\n9:9 alloc local\n9:9 alloc replicated\n9:9 spawn 0 none plain\n9:9 spawn 1 none hinted\n9:9 spawn 2 10 hinted\n9:9 sync\nend\n";

/// The code of a text, written again; want of memory where there is none.
fn again(alloc: Global, text: &str) -> Result<List<u8>, AllocError> {
    match read(alloc, text.as_bytes()) {
        Ok(code) => write_code(alloc, &code),
        Err(_) => Err(AllocError),
    }
}

#[test]
fn what_is_read_is_written_again(rt: HostRuntime) -> Result<(), AllocError> {
    let alloc = rt.alloc();
    let all = format!(in alloc; "{HEAD}{SILENT}{LOUD}{LAST}")?;
    for text in [FOURTEEN, TURNLESS, all.as_str()] {
        assert_eq!(rt; again(alloc, text)?.as_slice(), text.as_bytes());
    }
    Ok(())
}

/// The code of a text, verified and written; None where its first instruction is no Turn.
fn emitted(alloc: Global, text: &[u8]) -> Result<Option<List<u8>>, AllocError>
    requires { length text.now < 2 ^ 32 }
{
    let Ok(code) = read(alloc, text) else {
        return Err(AllocError);
    };
    match verify(alloc, code) {
        Ok(verified) => Ok(Some(write(alloc, &verified)?)),
        Err(VerifyRefusal::Bad { rule, .. }) => {
            if rule == Rule::NoEntryTurn {
                Ok(None)
            } else {
                Err(AllocError)
            }
        }
        Err(VerifyRefusal::OutOfMemory { .. }) => Err(AllocError),
    }
}

#[test]
fn verified_code_is_written(rt: HostRuntime) -> Result<(), AllocError> {
    let alloc = rt.alloc();
    let bytes = emitted(alloc, FOURTEEN.as_bytes())?;
    assert!(rt; bytes.is_some_and(|bytes| bytes.as_slice() == FOURTEEN.as_bytes()));
    assert!(rt; emitted(alloc, TURNLESS.as_bytes())?.is_none());
    Ok(())
}

const BARE: &str = "emu-code 1\nglobals 0\nreplicated 0\nformats 0\n";

const ONE_MAIN: &str = "functions 1\nmain 0\nfunction params 0 slots 0 height 0 spawns 0 length";

#[test]
fn the_first_broken_line_of_a_head_and_its_kind(rt: HostRuntime) -> Result<(), AllocError> {
    let alloc = rt.alloc();
    for (bytes, line, kind) in [
        ("", 1, CodeKind::BadHead),
        ("emu-code 1", 1, CodeKind::BadHead),
        ("emu-code 01\n", 1, CodeKind::BadHead),
        ("emu-code 1\n", 2, CodeKind::BadCount),
        ("emu-code 1\nglobals 4294967296\n", 2, CodeKind::BadCount),
        (
            "emu-code 1\nglobals 0\nreplicated -0\n",
            3,
            CodeKind::BadCount,
        ),
        (
            "emu-code 1\nglobals 0\nreplicated 0\nformats 18446744073709551616\n",
            4,
            CodeKind::BadCount,
        ),
        (
            "emu-code 1\nglobals 0\nreplicated 0\nformats 1\nformat \"%d\"\n",
            5,
            CodeKind::BadText,
        ),
        (
            "emu-code 1\nglobals 0\nreplicated 0\nformats 2\nformat \"\"\nformat \"\t\"\n",
            6,
            CodeKind::BadText,
        ),
    ] {
        let refusal = read(alloc, bytes.as_bytes()).err();
        assert!(rt;
            refusal == Some(CodeRefusal::Fault(CodeFault { line, kind })),
            "{bytes}"
        );
    }
    Ok(())
}

#[test]
fn the_first_broken_line_of_functions_and_its_kind(rt: HostRuntime) -> Result<(), AllocError> {
    let alloc = rt.alloc();
    for (rest, line, kind) in [
        ("functions +1\n", 5, CodeKind::BadCount),
        ("functions 1\nmain", 6, CodeKind::BadCount),
        (
            "functions 1\nmain 0\nfunction params 0 slots 0 height 0 spawns 2 length 0\n",
            7,
            CodeKind::BadHeader,
        ),
        ("functions 0\nmain 0\nend", 7, CodeKind::BadEnd),
        ("functions 0\nmain 0\nend\n\n", 8, CodeKind::BadEnd),
    ] {
        let bytes = format!(in alloc; "{BARE}{rest}")?;
        let refusal = read(alloc, bytes.as_bytes()).err();
        assert!(rt;
            refusal == Some(CodeRefusal::Fault(CodeFault { line, kind })),
            "{rest}"
        );
    }
    Ok(())
}

#[test]
fn the_first_broken_line_of_a_body_and_its_kind(rt: HostRuntime) -> Result<(), AllocError> {
    let alloc = rt.alloc();
    for (rest, line, kind) in [
        ("1\n1:1 push -0\nend\n", 8, CodeKind::BadInstr),
        (
            "1\n1:1 push 9223372036854775808\nend\n",
            8,
            CodeKind::BadInstr,
        ),
        ("2\n1:1 turn\n01:1 turn\nend\n", 9, CodeKind::BadInstr),
        ("2\n1:1 turn\n1:1 turn", 9, CodeKind::BadInstr),
        ("1\n1:1  turn\nend\n", 8, CodeKind::BadInstr),
        ("0\n1:1 turn\nend\n", 8, CodeKind::BadEnd),
    ] {
        let bytes = format!(in alloc; "{BARE}{ONE_MAIN} {rest}")?;
        let refusal = read(alloc, bytes.as_bytes()).err();
        assert!(rt;
            refusal == Some(CodeRefusal::Fault(CodeFault { line, kind })),
            "{rest}"
        );
    }
    Ok(())
}

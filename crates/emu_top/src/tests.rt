ghost use Rattle.std.specs.Prelude.{◌≤◌};

use super::*;
use emu_io::{MemSink, MemSource};
use std::alloc::{AllocError, Global};
use std::test::Fail;
use word_ops::{End, List, NoGate};

const SUM: &[u8] = b"int main() { printf(\"%ld\\n\", 2 + 3 * 4); return 0; }";

fn words(alloc: Global, texts: &[&str]) -> Result<Vec<String>, AllocError> {
    let mut words = Vec::new(alloc);
    for text in texts {
        words.push(String::from_str(alloc, text)?)?;
    }
    Ok(words)
}

fn source(alloc: Global, text: &[u8], step: usize, failing: &[u64]) -> Result<MemSource, AllocError>
    requires { 1 ≤ step }
{
    let bytes = List::from_vec(Vec::from_slice(alloc, text)?);
    let failing = List::from_vec(Vec::from_slice(alloc, failing)?);
    Ok(MemSource::new(bytes, step, failing))
}

fn sink(alloc: Global, step: usize, failing: &[u64]) -> Result<MemSink, AllocError>
    requires { 1 ≤ step }
{
    let failing = List::from_vec(Vec::from_slice(alloc, failing)?);
    Ok(MemSink::new(alloc, step, failing))
}

/// The status and the bytes of these words on a text.
pub fn answer(alloc: Global, texts: &[&str], text: &[u8]) -> Result<(u8, Vec<u8>), AllocError> {
    answer_to(alloc, &words(alloc, texts)?, text)
}

fn answer_to(alloc: Global, words: &Vec<String>, text: &[u8]) -> Result<(u8, Vec<u8>), AllocError> {
    let mut source = source(alloc, text, 7, &[])?;
    let mut sink = sink(alloc, 5, &[])?;
    let ended = emu_plain(alloc, words.as_slice(), &mut source, &mut sink)?;
    Ok((
        ended.status,
        Vec::from_slice(alloc, sink.bytes().as_slice())?,
    ))
}

#[test]
fn a_text_is_run_from_its_bytes_to_its_bytes(rt: HostRuntime) -> Result<(), Fail> {
    let squares =
        b"int main() { long *a = mw_malloc1dlong(4); for (long i = 0; i < 4; i++) { a[i] = i * i; } FENCE(); long s = 0; for (long i = 0; i < 4; i++) { s += a[i]; } printf(\"%ld\\n\", s); return 0; }";
    let rows = [
        (
            ["--nodelets=1", "--report"].as_slice(),
            squares.as_slice(),
            0,
            b"14\nend: done 0\ntraffic\npost 0 0 4\nnodelet 0 turns 11 applied 4\n".as_slice(),
        ),
        (
            ["--memory"].as_slice(),
            b"long g; int main() { g = 5; return 0; }".as_slice(),
            0,
            b"end: done 0\nwords\n0 35184372088832 5\n".as_slice(),
        ),
        (
            ["--memory", "--report"].as_slice(),
            b"int main() { long m = -9223372036854775807 - 1; printf(\"%ld\\n\", m / -1); return 0; }".as_slice(),
            3,
            b"end: trap Divide 1:67 strand 0.0\n".as_slice(),
        ),
        (
            ["--turns=4"].as_slice(),
            b"int main() { for (long i = 0; i < 3; i++) { ; } return 0; }".as_slice(),
            4,
            b"end: spent turns at nodelet 0\n".as_slice(),
        ),
        (
            [].as_slice(),
            b"".as_slice(),
            1,
            b"fault: 1:1 NoMain\n".as_slice(),
        ),
    ];
    for (flags, text, status, bytes) in rows {
        let mut words = words(rt.alloc(), &["run", "--serial", "0"])?;
        for flag in flags {
            words.push(String::from_str(rt.alloc(), flag)?)?;
        }
        let answer = answer_to(rt.alloc(), &words, text)?;
        assert_eq!(rt; answer.0, status);
        assert_eq!(rt; answer.1.as_slice(), bytes);
    }
    Ok(())
}

#[test]
fn a_workload_needs_no_source(rt: HostRuntime) -> Result<(), Fail> {
    let ran = b"gups 64 512\nend: done 0\n".as_slice();
    let words = words(rt.alloc(), &["run", "--workload", "0"])?;
    let mut source = source(rt.alloc(), SUM, 7, &[0])?;
    let mut sink = sink(rt.alloc(), 100, &[])?;
    let ended = emu_plain(rt.alloc(), words.as_slice(), &mut source, &mut sink)?;
    assert_eq!(rt; ended.status, 0);
    assert_eq!(rt; sink.bytes().as_slice(), ran);
    let text = answer(rt.alloc(), &["gen"], b"")?;
    assert_eq!(rt; text.0, 0);
    let again = answer(rt.alloc(), &["run"], text.1.as_slice())?;
    assert_eq!(rt; again.0, 0);
    assert_eq!(rt; again.1.as_slice(), ran);
    Ok(())
}

#[test]
fn a_text_is_checked_from_its_bytes_to_its_bytes(rt: HostRuntime) -> Result<(), Fail> {
    let rows = [
        (
            b"int main(){return 0;}".as_slice(),
            0,
            b"int main () {\n  return 0;\n}\n".as_slice(),
        ),
        (b"".as_slice(), 1, b"fault: 1:1 NoMain\n".as_slice()),
        (
            b"int main() { return 09; }".as_slice(),
            1,
            b"fault: 1:21 BadLiteral\n".as_slice(),
        ),
        (
            b"int main() { return 0 }".as_slice(),
            1,
            b"fault: 1:23 Unexpected\n".as_slice(),
        ),
    ];
    for (text, status, bytes) in rows {
        let answer = answer(rt.alloc(), &["check"], text)?;
        assert_eq!(rt; answer.0, status);
        assert_eq!(rt; answer.1.as_slice(), bytes);
    }
    Ok(())
}

#[test]
fn a_text_is_compiled_from_its_bytes_to_its_bytes(rt: HostRuntime) -> Result<(), Fail> {
    let code = b"emu-code 1\nglobals 1\nreplicated 0\nformats 0\nfunctions 1\nmain 0\n\
        function params 0 slots 0 height 1 spawns 0 length 5\n\
        0:0 turn\n0:0 push 0\n0:0 return\n0:0 push 0\n0:0 return\nend\n";
    let rows = [
        (
            b"long g; int main() { return 0; }".as_slice(),
            0,
            code.as_slice(),
        ),
        (
            b"int main() { return x; }".as_slice(),
            1,
            b"fault: 1:21 Unknown\n".as_slice(),
        ),
    ];
    for (text, status, bytes) in rows {
        let answer = answer(rt.alloc(), &["emit"], text)?;
        assert_eq!(rt; answer.0, status);
        assert_eq!(rt; answer.1.as_slice(), bytes);
    }
    Ok(())
}

fn refused(alloc: Global, texts: &[&str]) -> Result<bool, AllocError> {
    let answer = answer(alloc, texts, SUM)?;
    Ok(answer.0 == 2 && answer.1.as_slice() == b"fault: words\n".as_slice())
}

fn done(alloc: Global, texts: &[&str]) -> Result<bool, AllocError> {
    let answer = answer(alloc, texts, SUM)?;
    Ok(answer.0 == 0 && answer.1.as_slice() == b"14\nend: done 0\n".as_slice())
}

#[test]
fn words_of_a_run_are_taken(rt: HostRuntime) -> Result<(), Fail> {
    assert!(rt; done(rt.alloc(), &["run"])?);
    assert!(rt; done(rt.alloc(), &["run", "--nodelets", "64"])?);
    assert!(rt; done(rt.alloc(), &["--turns=1", "run", "--serial", "7"])?);
    Ok(())
}

#[test]
fn other_words_ask_for_nothing(rt: HostRuntime) -> Result<(), Fail> {
    assert!(rt; refused(rt.alloc(), &[])?);
    assert!(rt; refused(rt.alloc(), &["run", "--nodelets", "65"])?);
    assert!(rt; refused(rt.alloc(), &["run", "--turns", "0"])?);
    assert!(rt; refused(rt.alloc(), &["run", "--serial", "18446744073709551616"])?);
    assert!(rt; refused(rt.alloc(), &["run", "--serial", "0", "0"])?);
    Ok(())
}

#[test]
fn words_that_are_not_built_ask_for_nothing(rt: HostRuntime) -> Result<(), Fail> {
    for mode in ["replay", "audit", "exec", "time", "upgrade"] {
        assert!(rt; refused(rt.alloc(), &[mode])?);
    }
    for flag in ["--record", "--watch"] {
        assert!(rt; refused(rt.alloc(), &["run", flag])?);
    }
    Ok(())
}

#[test]
fn a_write_that_fails_leaves_a_beginning(rt: HostRuntime) -> Result<(), Fail> {
    let words = words(rt.alloc(), &["run", "--serial", "0"])?;
    let mut source = source(rt.alloc(), SUM, 7, &[])?;
    let mut sink = sink(rt.alloc(), 3, &[1])?;
    let ended = emu_plain(rt.alloc(), words.as_slice(), &mut source, &mut sink)?;
    assert_eq!(rt; ended.status, 6);
    assert_eq!(rt; sink.bytes().as_slice(), b"14\n".as_slice());
    let end = ended.ran.map(|ran| ran.end);
    assert_eq!(rt; end, Some(End::Done { value: 0 }));
    Ok(())
}

#[test]
fn a_read_that_fails_is_told(rt: HostRuntime) -> Result<(), Fail> {
    let words = words(rt.alloc(), &["run", "--serial", "0"])?;
    let mut source = source(rt.alloc(), SUM, 7, &[0])?;
    let mut sink = sink(rt.alloc(), 100, &[])?;
    let ended = emu_plain(rt.alloc(), words.as_slice(), &mut source, &mut sink)?;
    assert_eq!(rt; ended.status, 5);
    assert_eq!(rt; sink.bytes().as_slice(), b"fault: read\n".as_slice());
    Ok(())
}

#[test]
fn a_text_of_more_than_a_mebibyte_is_too_long(rt: HostRuntime) -> Result<(), Fail> {
    let blanks = vec![in rt.alloc(); b' '; 1_048_577]?;
    let answer = answer(rt.alloc(), &["check"], blanks.as_slice())?;
    assert_eq!(rt; answer.0, 1);
    assert_eq!(rt; answer.1.as_slice(), b"fault: too long\n".as_slice());
    Ok(())
}

#[test]
fn the_main_call_does_what_the_plain_call_does(rt: HostRuntime) -> Result<(), Fail> {
    let words = words(rt.alloc(), &["run", "--serial", "7"])?;
    let mut source = source(rt.alloc(), SUM, 1, &[])?;
    let mut sink = sink(rt.alloc(), 1, &[])?;
    let ended = emu_main(
        &rt,
        rt.alloc(),
        words.as_slice(),
        &mut source,
        &mut sink,
        &NoGate,
    )?;
    assert_eq!(rt; ended.status, 0);
    assert_eq!(rt; sink.bytes().as_slice(), b"14\nend: done 0\n".as_slice());
    Ok(())
}

//! `emu`: the words, standard input and standard output of the process, handed to the top call.
#![tactic(auto)]

use emu_io::{StdSink, StdSource};
use emu_top::emu_main;
use std::alloc::{AllocError, Global};
use std::io::{Stdin, Stdout};
use std::process::ExitCode;
use std::rt::Env;
use std::sync::Wait;
use std::thread::{self, Builder, Threads};
use std::{env, io};
use word_ops::NoGate;

/// Memory is short.
const OUT_OF_MEMORY: u8 = 7;

/// The runtime gives no words.
const NO_WORDS: u8 = 8;

/// How large the stack is, in bytes: a tree is walked by recursion, and may be as deep as its text is
/// long (docs/DECISIONS.md, "Forms").
const STACK: usize = 1 << 30;

/// The words without the program's name.
fn words<R: Env + AllocGlobal>(rt: &R) -> io::Result<Vec<String>> {
    let mut words = Vec::new(rt.alloc());
    for word in env::args(rt)?.skip(1) {
        words.push(word)?;
    }
    Ok(words)
}

/// Does what the words ask for, and answers the status.
fn status<R: Threads + Wait + Sync>(
    rt: &R,
    alloc: Global,
    words: &[String],
    input: Stdin,
    output: Stdout,
) -> u8 {
    let mut source = StdSource::new(input);
    let mut sink = StdSink::new(output);
    match emu_main(rt, alloc, words, &mut source, &mut sink, &NoGate) {
        Ok(ended) => ended.status,
        Err(AllocError) => OUT_OF_MEMORY,
    }
}

fn main(rt: HostRuntime) -> ExitCode {
    let words = match words(&rt) {
        Ok(words) => words,
        Err(error) if error.kind() == io::ErrorKind::OutOfMemory => {
            return ExitCode::from(OUT_OF_MEMORY);
        }
        Err(_) => return ExitCode::from(NO_WORDS),
    };
    let code = thread::scope(thread::scope_env(), &rt, |scope| {
        let call = || status(&rt, rt.alloc(), words.as_slice(), rt.stdin(), rt.stdout());
        match Builder::new().stack_size(STACK).spawn_scoped(scope, call) {
            Ok(caller) => caller.join(&rt),
            Err(_) => OUT_OF_MEMORY,
        }
    });
    ExitCode::from(code)
}

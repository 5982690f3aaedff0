ghost use Rattle.std.specs.Prelude.{◌≡◌, ◌++◌, ◌≤◌, ◌<◌, length, IfOk, OnOk, OnErr, pos};
ghost use Rattle.workloads.specs.Workload.{elements, seed, stride, template, value_text, filled, workload_text};

use crate::templates::{CHASE, EIGHTH, ELEMENTS, GUPS, MARK, MASK, SEED, STREAM, STRIDE};
use std::alloc::{AllocError, Global};
use word_ops::{List, push_decimal};

/// The source text of a workload (docs/language.md, "Workloads"). The number gives its kind, its
/// size and its values. It has 1048576 bytes at most.
pub fn text(alloc: Global, number: u64) -> Result<List<u8>, AllocError>
    requires { number ≤ 1000000 }
    ensures text { IfOk result (λ text. text ≡ workload_text number) }
    ensures short { IfOk result (λ text. length text ≤ 1048576) }
{
    let mut text = List::new(alloc);
    let mut rest = template(number).as_bytes();
    while !rest.is_empty() {
        rest = push_first(&mut text, rest, number)?;
    }
    Ok(text)
}

/// Appends what the first byte of a template stands for, or its first mark, and answers the bytes
/// behind it. Want of memory changes nothing.
#[tactic(auto, using(crate::proofs::FilledLemmas::filled_first_byte))]
fn push_first<'a>(
    out: &mut List<u8>,
    template: &'a [u8],
    number: u64,
) -> Result<&'a [u8], AllocError>
    requires number { number ≤ 1000000 }
    requires some { 0 < length template.now }
    ensures less { IfOk result (λ rest. length rest.now < length template.entry.now) }
    ensures ok { IfOk result (λ rest. out.new ++ filled (value_text number) rest.now
        ≡ out.old ++ filled (value_text number) template.entry.now) }
    ensures err { OnErr result (out.new ≡ out.old) }
{
    match template {
        [MARK, letter, rest @ ..] => {
            push_value(out, *letter, number)?;
            Ok(rest)
        }
        [byte, rest @ ..] => match out.push(*byte) {
            Ok(()) => Ok(rest),
            Err(_) => Err(AllocError),
        },
        [] => Ok(template),
    }
}

/// The template of a workload's kind.
fn template(number: u64) -> &'static str
    ensures { result.now ≡ template number }
{
    match number % 3 {
        0 => GUPS,
        1 => STREAM,
        _ => CHASE,
    }
}

/// Appends what stands in the place of a mark. Want of memory changes nothing.
fn push_value(out: &mut List<u8>, letter: u8, number: u64) -> Result<(), AllocError>
    requires { number ≤ 1000000 }
    ensures ok { OnOk result (out.new ≡ out.old ++ value_text number letter) }
    ensures err { OnErr result (out.new ≡ out.old) }
{
    match letter {
        ELEMENTS => push_decimal(out, elements(number)),
        MASK => push_decimal(out, elements(number) - 1),
        EIGHTH => push_decimal(out, elements(number) / 8),
        STRIDE => push_decimal(out, stride(number)),
        SEED => push_decimal(out, seed(number)),
        _ => Ok(()),
    }
}

/// How many elements a workload has.
fn elements(number: u64) -> i64
    ensures { result ≡ pos (elements number) }
{
    match number / 3 % 6 {
        0 => 64,
        1 => 128,
        2 => 256,
        3 => 512,
        4 => 1024,
        _ => 2048,
    }
}

/// What tells workloads of one kind and size apart.
fn seed(number: u64) -> i64
    ensures { result ≡ pos (seed number) }
{
    (number / 18) as i64
}

/// How far a chase goes from one element to the next.
fn stride(number: u64) -> i64
    ensures { result ≡ pos (stride number) }
{
    2 * (seed(number) % 16) + 3
}

ghost use Rattle.std.specs.Prelude.{◌≡◌, ◌++◌, OnOk, IfOk, flat_map};
ghost use Rattle.word_ops.specs.Ending.{line};
ghost use Rattle.word_ops.specs.Journal.{count_line};
ghost use Rattle.code_text.specs.CodeText.{ArePrintable, code_text, format_line, function_text, body_text};

use crate::header::Header;
use crate::spelling::{spell_format, spell_header, spell_placed};
use std::alloc::{AllocError, Global};
use threadlet_code::{Code, FuncCode, Verified};
use word_ops::{Format, List};

/// The text of code (docs/outputs.md, "Code text").
pub fn write(alloc: Global, code: &Verified) -> Result<List<u8>, AllocError>
    requires { ArePrintable code.now.code }
    ensures { IfOk result (λ bytes. bytes ≡ code_text code.now.code) }
{
    write_code(alloc, code.code())
}

/// The text of code that need not keep any rule.
pub(crate) fn write_code(alloc: Global, code: &Code) -> Result<List<u8>, AllocError>
    ensures { IfOk result (λ bytes. bytes ≡ code_text code.now) }
{
    let mut out = List::new(alloc);
    push_line(&mut out, b"emu-code 1")?;
    push_count(alloc, &mut out, "globals", u64::from(code.globals))?;
    push_count(alloc, &mut out, "replicated", u64::from(code.replicated))?;
    push_count(alloc, &mut out, "formats", code.formats.len() as u64)?;
    push_formats(alloc, &mut out, &code.formats)?;
    push_count(alloc, &mut out, "functions", code.functions.len() as u64)?;
    push_count(alloc, &mut out, "main", u64::from(code.main))?;
    push_functions(alloc, &mut out, &code.functions)?;
    push_line(&mut out, b"end")?;
    Ok(out)
}

/// Appends a line of these bytes.
fn push_line(out: &mut List<u8>, text: &[u8]) -> Result<(), AllocError>
    ensures { OnOk result (out.new ≡ out.old ++ line text.now) }
{
    out.extend_from_slice(text)?;
    out.add(b'\n')
}

/// Appends a line of a word and a number.
fn push_count(alloc: Global, out: &mut List<u8>, word: &str, n: u64) -> Result<(), AllocError>
    ensures { OnOk result (out.new ≡ out.old ++ count_line word.now n) }
{
    let text = format!(in alloc; "{word} {n}")?;
    push_line(out, text.as_bytes())
}

/// Appends the lines of formats.
fn push_formats(alloc: Global, out: &mut List<u8>, formats: &List<Format>) -> Result<(), AllocError>
    ensures { OnOk result (out.new ≡ out.old ++ flat_map format_line formats.now) }
{
    for format in formats.as_slice() {
        let text = spell_format(alloc, format)?;
        push_line(out, text.as_slice())?;
    }
    Ok(())
}

/// Appends the lines of functions.
fn push_functions(
    alloc: Global,
    out: &mut List<u8>,
    functions: &List<FuncCode>,
) -> Result<(), AllocError>
    ensures { OnOk result (out.new ≡ out.old ++ flat_map function_text functions.now) }
{
    for f in functions.as_slice() {
        push_function(alloc, out, f)?;
    }
    Ok(())
}

/// Appends the lines of a function.
fn push_function(alloc: Global, out: &mut List<u8>, f: &FuncCode) -> Result<(), AllocError>
    ensures { OnOk result (out.new ≡ out.old ++ function_text f.now) }
{
    let header = spell_header(alloc, Header::of(f))?;
    push_line(out, header.as_slice())?;
    push_body(alloc, out, f)
}

/// Appends the lines of a function's instructions.
fn push_body(alloc: Global, out: &mut List<u8>, f: &FuncCode) -> Result<(), AllocError>
    ensures { OnOk result (out.new ≡ out.old ++ body_text f.now.places f.now.body) }
{
    for i in 0..f.places.len().min(f.body.len()) {
        let text = spell_placed(alloc, *f.places.at(i), *f.body.at(i))?;
        push_line(out, text.as_slice())?;
    }
    Ok(())
}

//! Tokens, one behind the other on a page.

ghost use Rattle.std.specs.Prelude.{◌≡◌, ◌++◌, OnOk, IsTrue};
ghost use Rattle.cilk_model.specs.TreeTokens.{name, word as word_of, mark, nowhere};
ghost use Rattle.cilk_model.specs.Lexemes as lexeme;
ghost use Rattle.cilk_model.specs.Layout.{put, is_round, margin as margin_of};
ghost use Rattle.std.specs.List.{list_any};
ghost use Rattle.cilk_print.specs.Printing.{is_plain, is_only_tight, led, led_tight};

use cilk_model::{Bracket, Gap, Page};
use std::alloc::AllocError;
use word_ops::{List, push_decimal};

/// Two blanks for each brace that is open.
fn margin(text: &mut List<u8>, brackets: &[Bracket]) -> Result<(), AllocError>
    ensures { OnOk result (text.new ≡ text.old ++ margin_of brackets.now) }
{
    for bracket in brackets {
        if let Bracket::Brace = bracket {
            text.extend_from_slice(b"  ")?;
        }
    }
    Ok(())
}

/// What stands before a token that is not tight.
fn lead(page: &mut Page) -> Result<(), AllocError>
    ensures { OnOk result (page.new ≡ led page.old) }
{
    match page.gap {
        Gap::Margin => margin(&mut page.text, page.brackets.as_slice()),
        Gap::Nothing => Ok(()),
        Gap::Blank => page.text.extend_from_slice(b" "),
    }
}

#[tactic(auto, unfolding(cilk_model::specs::Layout::put))]
/// A name, or anything else with a blank before and behind it.
pub fn plain(page: &mut Page, spelling: &[u8]) -> Result<(), AllocError>
    ensures { OnOk result (page.new ≡ put page.old (name spelling.now)) }
{
    lead(page)?;
    page.text.extend_from_slice(spelling)?;
    page.gap = Gap::Blank;
    Ok(())
}

#[tactic(auto, unfolding(cilk_model::specs::Layout::put))]
/// A reserved word.
pub fn word(page: &mut Page, spelling: &str) -> Result<(), AllocError>
    ensures { OnOk result (page.new ≡ put page.old (lexeme.word nowhere spelling.now)) }
{
    plain(page, spelling.as_bytes())
}

#[tactic(auto, unfolding(cilk_model::specs::Layout::put))]
/// A mark with a blank before and behind it.
pub fn operator(page: &mut Page, spelling: &str) -> Result<(), AllocError>
    requires { IsTrue (is_plain spelling.now) }
    ensures { OnOk result (page.new ≡ put page.old (lexeme.mark nowhere spelling.now)) }
{
    plain(page, spelling.as_bytes())
}

#[tactic(auto, unfolding(cilk_model::specs::Layout::put))]
/// A literal, in decimal.
pub fn literal(page: &mut Page, value: i64) -> Result<(), AllocError>
    ensures { OnOk result (page.new ≡ put page.old (lexeme.literal nowhere value)) }
{
    lead(page)?;
    push_decimal(&mut page.text, value)?;
    page.gap = Gap::Blank;
    Ok(())
}

#[tactic(auto, unfolding(cilk_model::specs::Layout::put))]
/// A text literal, by the bytes between its quotes.
pub fn text(page: &mut Page, between: &[u8]) -> Result<(), AllocError>
    ensures { OnOk result (page.new ≡ put page.old (lexeme.text nowhere between.now)) }
{
    lead(page)?;
    page.text.extend_from_slice(b"\"")?;
    page.text.extend_from_slice(between)?;
    page.text.extend_from_slice(b"\"")?;
    page.gap = Gap::Blank;
    Ok(())
}

#[tactic(auto, unfolding(cilk_model::specs::Layout::put))]
pub fn open_round(page: &mut Page) -> Result<(), AllocError>
    ensures { OnOk result (page.new ≡ put page.old (mark "(")) }
{
    lead(page)?;
    page.text.extend_from_slice(b"(")?;
    page.brackets.add(Bracket::Round)?;
    page.gap = Gap::Nothing;
    Ok(())
}

#[tactic(auto, unfolding(cilk_model::specs::Layout::put))]
pub fn open_square(page: &mut Page) -> Result<(), AllocError>
    ensures { OnOk result (page.new ≡ put page.old (mark "[")) }
{
    lead(page)?;
    page.text.extend_from_slice(b"[")?;
    page.gap = Gap::Nothing;
    Ok(())
}

#[tactic(auto, unfolding(cilk_model::specs::Layout::put))]
pub fn open_brace(page: &mut Page) -> Result<(), AllocError>
    ensures { OnOk result (page.new ≡ put page.old (mark "{")) }
{
    lead(page)?;
    page.text.extend_from_slice(b"{\n")?;
    page.brackets.add(Bracket::Brace)?;
    page.gap = Gap::Margin;
    Ok(())
}

#[tactic(auto, unfolding(cilk_model::specs::Layout::put))]
pub fn close_brace(page: &mut Page) -> Result<(), AllocError>
    ensures { OnOk result (page.new ≡ put page.old (mark "}")) }
{
    let _brace = page.brackets.pop();
    lead(page)?;
    page.text.extend_from_slice(b"}\n")?;
    page.gap = Gap::Margin;
    Ok(())
}

/// What stands before a token that is tight.
fn lead_tight(page: &mut Page) -> Result<(), AllocError>
    ensures { OnOk result (page.new ≡ led_tight page.old) }
{
    match page.gap {
        Gap::Margin => margin(&mut page.text, page.brackets.as_slice()),
        Gap::Nothing => Ok(()),
        Gap::Blank => Ok(()),
    }
}

#[tactic(auto, unfolding(cilk_model::specs::Layout::put))]
/// `,`, `]`, `++` or `--`, which no blank stands before.
pub fn tight(page: &mut Page, spelling: &str) -> Result<(), AllocError>
    requires { IsTrue (is_only_tight spelling.now) }
    ensures { OnOk result (page.new ≡ put page.old (lexeme.mark nowhere spelling.now)) }
{
    lead_tight(page)?;
    page.text.extend_from_slice(spelling.as_bytes())?;
    page.gap = Gap::Blank;
    Ok(())
}

#[tactic(auto, unfolding(cilk_model::specs::Layout::put))]
pub fn close_round(page: &mut Page) -> Result<(), AllocError>
    ensures { OnOk result (page.new ≡ put page.old (mark ")")) }
{
    lead_tight(page)?;
    page.text.extend_from_slice(b")")?;
    let _bracket = page.brackets.pop();
    page.gap = Gap::Blank;
    Ok(())
}

/// The innermost bracket or another one is round.
fn is_in_round(brackets: &[Bracket]) -> bool
    ensures { result ≡ list_any is_round brackets.now }
{
    brackets.contains(&Bracket::Round)
}

#[tactic(auto, unfolding(cilk_model::specs::Layout::put))]
/// `;`, which ends a line outside round brackets.
pub fn semicolon(page: &mut Page) -> Result<(), AllocError>
    ensures { OnOk result (page.new ≡ put page.old (mark ";")) }
{
    lead_tight(page)?;
    if is_in_round(page.brackets.as_slice()) {
        page.text.extend_from_slice(b";")?;
        page.gap = Gap::Blank;
        Ok(())
    } else {
        page.text.extend_from_slice(b";\n")?;
        page.gap = Gap::Margin;
        Ok(())
    }
}

ghost use Rattle.std.specs.Prelude.{◌≡◌, ◌*◌, ◌++◌, ◌<◌, length, OnOk, IfOk, flat_map};
ghost use Rattle.std.specs.String.{string_bytes};
ghost use Rattle.word_ops.specs.Report.{below, between_line, between_lines, nodelet_line, report_of};

use std::alloc::{AllocError, Global};
use std::fmt::Write;
use word_ops::{List, Traffic};

/// The report of `t` (docs/outputs.md, "Report").
pub fn report_text(alloc: Global, t: &Traffic) -> Result<List<u8>, AllocError>
    requires moves { length t.now.moves ≡ t.now.n * t.now.n }
    requires births { length t.now.births ≡ t.now.n * t.now.n }
    requires posts { length t.now.posts ≡ t.now.n * t.now.n }
    requires dones { length t.now.dones ≡ t.now.n * t.now.n }
    requires turns { length t.now.turns ≡ t.now.n }
    requires applied { length t.now.applied ≡ t.now.n }
    ensures { IfOk result (λ text. text ≡ report_of t.now) }
{
    let mut out = String::new(alloc);
    out.push_str("traffic\n")?;
    between(&mut out, "move", &t.moves, t.n)?;
    between(&mut out, "birth", &t.births, t.n)?;
    between(&mut out, "post", &t.posts, t.n)?;
    between(&mut out, "done", &t.dones, t.n)?;
    at_each(&mut out, t)?;
    Ok(List::from_vec(out.into_bytes()))
}

/// Appends the lines of how often a `kind` of thing went between any two of `n` nodelets.
fn between(out: &mut String, kind: &str, counts: &List<u64>, n: u32) -> Result<(), AllocError>
    requires { length counts.now ≡ n * n }
    ensures { OnOk result (string_bytes out.new ≡ string_bytes out.old ++ between_lines kind.now counts.now n) }
{
    for i in 0..n {
        between_from(out, kind, counts, n, i)?;
    }
    Ok(())
}

/// Appends those of these lines that are about what nodelet `i` sent.
fn between_from(
    out: &mut String,
    kind: &str,
    counts: &List<u64>,
    n: u32,
    i: u32,
) -> Result<(), AllocError>
    requires counts { length counts.now ≡ n * n }
    requires sender { i < n }
    ensures { OnOk result (string_bytes out.new ≡ string_bytes out.old ++ flat_map (between_line kind.now counts.now n i) (below n)) }
{
    for j in 0..n {
        let count = *counts.at(i as usize * n as usize + j as usize);
        if count != 0 {
            writeln!(out, "{kind} {i} {j} {count}")?;
        }
    }
    Ok(())
}

/// Appends the lines of what was done at each nodelet.
fn at_each(out: &mut String, t: &Traffic) -> Result<(), AllocError>
    requires turns { length t.now.turns ≡ t.now.n }
    requires applied { length t.now.applied ≡ t.now.n }
    ensures { OnOk result (string_bytes out.new ≡ string_bytes out.old ++ flat_map (nodelet_line t.now) (below t.now.n)) }
{
    for k in 0..t.n {
        let turns = t.turns.at(k as usize);
        let applied = t.applied.at(k as usize);
        writeln!(out, "nodelet {k} turns {turns} applied {applied}")?;
    }
    Ok(())
}

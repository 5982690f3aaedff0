//! A core before any event.

ghost use Rattle.std.specs.Prelude.{◌≡◌, ◌≤◌, ℕ, [], true, length, IfOk};
ghost use Rattle.std.specs.List.{list_all};
ghost use Rattle.core_model.specs.Core.{start_core};
ghost use Rattle.sim_core.specs.code.Links.{has_links, are_clear};
ghost use Rattle.sim_core.specs.code.Numbered.{AreFirst};
ghost use Rattle.sim_core.specs.Kept.{setup_in, core_in, core_fits};
ghost use Rattle.sim_core.specs.Advanced.{IsReached, entries_at};

use crate::machine::Core;
use crate::outgoing::Outgoing;
use nodelet_core::Nodelet;
use std::alloc::{AllocError, Global};
use threadlet_code::Verified;
use word_ops::Rules;

impl Core {
    /// The core of `n` nodelets, each of which serves so many turns, before any event; it grows on `alloc`
    /// (docs/machine.md, "The core").
    pub fn new(
        alloc: Global,
        n: u32,
        turns: u64,
        code: &Verified,
        rules: Rules,
    ) -> Result<Core, AllocError>
        requires some { 1 ≤ n }
        requires few { n ≤ 64 }
        ensures core { IfOk result (λ it. core_in code.now.code it ≡ start_core (setup_in code.now.code it)) }
        ensures nodelets { IfOk result (λ it. it.count ≡ n) }
        ensures turns { IfOk result (λ it. it.turns ≡ turns) }
        ensures rules { IfOk result (λ it. it.rules ≡ rules) }
        ensures fits { IfOk result (λ it. core_fits code.now.code it ≡ true) }
        ensures reached { IfOk result (λ it. IsReached code.now.code it) }
        ensures entries { IfOk result (λ it. (k : ℕ) → entries_at it k ≡ []) }
    {
        let nodes = first_nodes(alloc, n, turns, code, rules)?;
        let links = first_links(alloc, n)?;
        Ok(Core {
            alloc,
            count: n,
            turns,
            rules,
            nodes,
            links,
        })
    }
}

/// The nodelets, by number.
fn first_nodes(
    alloc: Global,
    n: u32,
    turns: u64,
    code: &Verified,
    rules: Rules,
) -> Result<Vec<Nodelet>, AllocError>
    requires { n ≤ 64 }
    ensures count { IfOk result (λ it. length it.items ≡ n) }
    ensures first { IfOk result (λ it. AreFirst code.now.code n turns rules it.items) }
{
    let mut nodes = Vec::new(alloc);
    for k in 0..n {
        nodes.push(Nodelet::new(alloc, k, n, turns, code, rules)?)?;
    }
    Ok(nodes)
}

/// Links from each nodelet to each, with no packet on them.
fn first_links(alloc: Global, n: u32) -> Result<Vec<Outgoing>, AllocError>
    ensures count { IfOk result (λ it. length it.items ≡ n) }
    ensures linked { IfOk result (λ it. list_all (has_links n) it.items ≡ true) }
    ensures clear { IfOk result (λ it. list_all are_clear it.items ≡ true) }
{
    let mut links = Vec::new(alloc);
    for _ in 0..n {
        links.push(Outgoing::new(alloc, n)?)?;
    }
    Ok(links)
}

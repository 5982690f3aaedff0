//! Nodelets before any event.

ghost use Rattle.std.specs.Prelude.{◌≡◌, ◌<◌, ◌≤◌, ℕ, ℤ, pos, true, [], map, IfOk};
ghost use Rattle.std.specs.List.{list_all, list_any};
ghost use Rattle.nodelet_mem.specs.Words.{word_of, is_granted};
ghost use Rattle.world_model.specs.World.{lies_in};
ghost use Rattle.world_model.specs.Run.{first_grants};
ghost use Rattle.nodelet_core.specs.Carried.{context_in};
ghost use Rattle.nodelet_core.specs.code.Standing.{are_among};
ghost use Rattle.core_model.specs.Nodes.{Setup};
ghost use Rattle.core_model.specs.Start.{start_node};
ghost use Rattle.nodelet_core.specs.Kept.{node_of, setup_of, all_fit, context_fits};

use crate::nodelet::Nodelet;
use crate::standing::Standing;
use crate::tally::Tally;
use ack_fence::Counts;
use nodelet_mem::Words;
use service::Services;
use spawn_tree::Joins;
use std::alloc::{AllocError, Global};
use threadlet_code::Verified;
use threadlet_state::started;
use word_ops::{Counts3, List, Name, Rules};

/// The address of the first replicated word.
const REPLICATED: i64 = 34_084_860_461_056;

/// The address of the first word at nodelet 0 alone.
const GLOBALS: i64 = 35_184_372_088_832;

/// Main's name.
const MAIN: Name = Name {
    nodelet: 0,
    number: 0,
};

impl Nodelet {
    /// Nodelet `number` of `n`, each of which serves so many turns, before any event; nodelet 0 has main. It
    /// grows on `alloc` (docs/machine.md, "Nodelets").
    pub fn new(
        alloc: Global,
        number: u32,
        n: u32,
        turns: u64,
        code: &Verified,
        rules: Rules,
    ) -> Result<Nodelet, AllocError>
        requires number { number < n }
        requires nodelets { n ≤ 64 }
        ensures node { IfOk result (λ v. node_of code.now.code v ≡ start_node (setup_of code.now.code v) number) }
        ensures number { IfOk result (λ v. v.number ≡ number) }
        ensures nodelets { IfOk result (λ v. v.nodelets ≡ n) }
        ensures turns { IfOk result (λ v. v.turns ≡ turns) }
        ensures rules { IfOk result (λ v. v.rules ≡ rules) }
        ensures entries { IfOk result (λ v. v.entries ≡ []) }
        ensures fits { IfOk result (λ v. all_fit code.now.code v ≡ true) }
    {
        let text = code.code();
        Ok(Nodelet {
            alloc,
            number,
            nodelets: n,
            turns,
            rules,
            words: first_words(alloc, number, text.globals, text.replicated)?,
            joins: Joins::new(alloc),
            under_way: Counts::new(alloc),
            services: Services::new(alloc, n, text.globals, text.replicated),
            standing: first_contexts(alloc, number, code)?,
            spawned: 0,
            counts: Counts3 {
                turns: 0,
                applied: 0,
                sent_contexts: 0,
            },
            tally: Tally::new(alloc, n)?,
            main_value: None,
            first_trap: None,
            stamp: 0,
            entries: List::new(alloc),
            room: List::new(alloc),
        })
    }
}

/// Words that are all 0, with the globals of nodelet `number` granted.
fn first_words(
    alloc: Global,
    number: u32,
    globals: u32,
    replicated: u32,
) -> Result<Words, AllocError>
    ensures words { IfOk result (λ it. (a : ℤ) → word_of it a ≡ pos 0) }
    ensures grants { IfOk result (λ it. (a : ℤ) → is_granted it a ≡ list_any (lies_in a) (first_grants globals replicated number)) }
{
    let mut words = Words::new(alloc);
    words.grant(REPLICATED, u64::from(replicated))?;
    if number == 0 {
        words.grant(GLOBALS, u64::from(globals))?;
    }
    Ok(words)
}

/// Main at nodelet 0, and nobody elsewhere.
fn first_contexts(alloc: Global, number: u32, code: &Verified) -> Result<Standing, AllocError>
    ensures node { IfOk result (λ it. (m : Setup) → m.code ≡ code.now.code → map (context_in code.now.code) it.contexts.items ≡ (start_node m number).contexts) }
    ensures fits { IfOk result (λ it. list_all (context_fits code.now.code) it.contexts.items ≡ true) }
    ensures among { IfOk result (λ it. (n : ℕ) → number < n → are_among n it.contexts.items ≡ true) }
{
    if number != 0 {
        return Ok(Standing::new(alloc));
    }
    let main = started(alloc, code, code.code().main, &[], MAIN, 0, None)?;
    Standing::of(alloc, main)
}

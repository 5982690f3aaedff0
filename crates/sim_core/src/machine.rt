ghost use Rattle.std.specs.Prelude.{◌≡◌, ◌≤◌, true, length};
ghost use Rattle.std.specs.List.{list_all};
ghost use Rattle.sim_core.specs.code.Links.{has_links};
ghost use Rattle.sim_core.specs.code.Numbered.{AreNumbered};

use crate::outgoing::Outgoing;
use nodelet_core::Nodelet;
use std::alloc::Global;
use word_ops::Rules;

/// All nodelets of a run and the links between them (docs/machine.md, "The core").
#[derive(Drop)]
pub struct Core {
    pub(crate) alloc: Global,
    pub(crate) count: u32,
    pub(crate) turns: u64,
    pub(crate) rules: Rules,
    pub(crate) nodes: Vec<Nodelet>,
    // At each number the links from that nodelet.
    pub(crate) links: Vec<Outgoing>,
    ghost some: { 1 ≤ count },
    ghost few: { count ≤ 64 },
    ghost nodes_count: { length nodes.items ≡ count },
    ghost links_count: { length links.items ≡ count },
    ghost all_linked: { list_all (has_links count) links.items ≡ true },
    ghost numbered: { AreNumbered count turns rules nodes.items },
}

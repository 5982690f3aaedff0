ghost use Rattle.std.specs.Prelude.{◌≡◌, ◌<◌, ◌≤◌, true};
ghost use Rattle.nodelet_core.specs.code.Standing.{are_among};
ghost use Rattle.nodelet_core.specs.code.Tallied.{HasSize, IsBounded};

use crate::standing::Standing;
use crate::tally::Tally;
use ack_fence::Counts;
use core_model::Trapped;
use nodelet_mem::Words;
use service::Services;
use spawn_tree::Joins;
use std::alloc::Global;
use threadlet_state::Frame;
use word_ops::{Counts3, Entry, List, Rules};

/// A nodelet: its words and grants, the contexts that stand at it, what it keeps of their children and of what
/// they have under way, its services, and its entries (docs/machine.md, "Nodelets").
#[derive(Drop)]
pub struct Nodelet {
    pub(crate) alloc: Global,
    pub(crate) number: u32,
    pub(crate) nodelets: u32,
    pub(crate) turns: u64,
    pub(crate) rules: Rules,
    pub(crate) words: Words,
    pub(crate) joins: Joins,
    pub(crate) under_way: Counts,
    pub(crate) services: Services,
    pub(crate) standing: Standing,
    // How many strands were spawned here; main is not among them.
    pub(crate) spawned: u64,
    pub(crate) counts: Counts3,
    pub(crate) tally: Tally,
    pub(crate) main_value: Option<i64>,
    pub(crate) first_trap: Option<Trapped>,
    pub(crate) stamp: u64,
    pub(crate) entries: List<Entry>,
    // Frames that are no longer needed, in whose memory the next copy is made.
    pub(crate) room: List<Frame>,
    ghost here: { number < nodelets },
    ghost few: { nodelets ≤ 64 },
    ghost among: { are_among nodelets standing.contexts.items ≡ true },
    ghost served_by_all: { services.cursors.nodelets ≡ nodelets },
    ghost tally_size: { HasSize nodelets tally },
    ghost tally_bound: { IsBounded stamp tally },
    ghost spawned_bound: { spawned ≤ stamp },
    ghost turns_bound: { counts.turns ≤ stamp },
    ghost applied_bound: { counts.applied ≤ stamp },
    ghost sent_bound: { counts.sent_contexts ≤ stamp },
}

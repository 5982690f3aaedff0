//! What a core leaves of the run that has led to it.

ghost use Rattle.std.specs.Prelude.{◌≡◌, ◌≤◌, true, slice_get, IfOk};
ghost use Rattle.sim_core.specs.code.Recorded.{parts_in, pieces_in};
ghost use Rattle.sim_core.specs.Kept.{setup_in, core_in, core_fits};
ghost use Rattle.sim_core.specs.Advanced.{entries_at};
ghost use Rattle.sim_core.specs.Shown.{IsShown};

use crate::machine::Core;
use nodelet_core::{Nodelet, Records};
use std::alloc::{AllocError, Global};
use threadlet_code::Verified;
use traffic_report::Ran;
use word_ops::{Entry, List, Step};

impl Core {
    /// The run that has led here, with the steps that were told of: its end, output, words and traffic. The entries
    /// and the output are moved (docs/machine.md, "The core").
    pub fn into_ran(self, code: &Verified, told: List<Step>) -> Result<Ran, AllocError>
        requires fits { core_fits code.now.code self ≡ true }
        ensures { IfOk result (IsShown (setup_in code.now.code self) (core_in code.now.code self) told (entries_at self)) }
    {
        let end = self.end(code);
        let cells = self.cells()?;
        let traffic = self.traffic()?;
        let Core { alloc, nodes, .. } = self;
        let AllRecords { parts, out } = all_records(alloc, nodes)?;
        Ok(Ran {
            end,
            told,
            parts,
            out,
            cells,
            traffic,
        })
    }
}

/// The entries of each nodelet, and the output.
#[derive(Drop)]
struct AllRecords {
    parts: List<List<Entry>>,
    out: List<List<u8>>,
}

/// What nodelets have recorded; the output is that of the first one.
fn all_records(alloc: Global, nodes: Vec<Nodelet>) -> Result<AllRecords, AllocError>
    ensures parts { IfOk result (λ it. it.parts ≡ parts_in nodes.items) }
    ensures out { IfOk result (λ it. it.out ≡ pieces_in (slice_get nodes.items 0)) }
{
    let mut parts = List::new(alloc);
    let mut out = List::new(alloc);
    for nodelet in nodes {
        let Records { entries, pieces } = nodelet.into_records();
        out = out_with(out, parts.len(), pieces);
        parts.add(entries)?;
    }
    Ok(AllRecords { parts, out })
}

/// The output after one nodelet more: that of the first one.
fn out_with(out: List<List<u8>>, earlier: usize, pieces: List<List<u8>>) -> List<List<u8>>
    ensures first { earlier ≡ 0 → result ≡ pieces }
    ensures later { 1 ≤ earlier → result ≡ out }
{
    if earlier == 0 { pieces } else { out }
}

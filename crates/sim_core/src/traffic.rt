//! The traffic that the nodelets of a core have counted.

ghost use Rattle.std.specs.Prelude.{◌≡◌, ◌<◌, ◌++◌, ℕ, map, length, flat_map, OnOk, IfOk};
ghost use Rattle.word_ops.specs.Report.{below};
ghost use Rattle.threadlet_code.specs.declared.code.Code.{Code};
ghost use Rattle.core_model.specs.Counted.{by_pairs, traffic_in};
ghost use Rattle.sim_core.specs.Kept.{setup_in, core_in};

use crate::machine::Core;
use std::alloc::AllocError;
use word_ops::{List, Traffic};

impl Core {
    /// The traffic of the run that led here (docs/outputs.md, "Report").
    pub fn traffic(&self) -> Result<Traffic, AllocError>
        ensures { IfOk result (λ t. (code : Code) → t ≡ traffic_in (setup_in code self.now) (core_in code self.now)) }
    {
        let mut traffic = Traffic {
            n: self.count,
            moves: self.moves()?,
            births: List::new(self.alloc),
            posts: List::new(self.alloc),
            dones: List::new(self.alloc),
            turns: List::new(self.alloc),
            applied: List::new(self.alloc),
        };
        for k in 0..self.count {
            let nodelet = self.node(k);
            let tally = nodelet.tally();
            traffic.births.extend_from_slice(tally.births.as_slice())?;
            traffic.posts.extend_from_slice(tally.posts.as_slice())?;
            traffic.dones.extend_from_slice(tally.dones.as_slice())?;
            traffic.turns.add(nodelet.served())?;
            traffic.applied.add(nodelet.counts().applied)?;
        }
        Ok(traffic)
    }

    /// How often a strand moved from one nodelet to another, row by row: the latter has counted it.
    fn moves(&self) -> Result<List<u64>, AllocError>
        ensures { IfOk result (λ counts. (code : Code) → counts ≡ by_pairs self.now.count (λ i j. ((core_in code self.now).nodes j).tallies.moves i)) }
    {
        let mut counts = List::new(self.alloc);
        for i in 0..self.count {
            self.add_moves_from(&mut counts, i)?;
        }
        Ok(counts)
    }

    /// Adds how often a strand moved from a nodelet to each.
    fn add_moves_from(&self, counts: &mut List<u64>, i: u32) -> Result<(), AllocError>
        requires { i < self.now.count }
        ensures { OnOk result ((code : Code) → counts.new ≡ counts.old ++ map (λ j. ((core_in code self.now).nodes j).tallies.moves i) (below self.now.count)) }
    {
        for j in 0..self.count {
            counts.add(*self.node(j).tally().moves.at(i as usize))?;
        }
        Ok(())
    }
}

//! The words that a run has left, listed.

ghost use Rattle.std.specs.Prelude.{◌≡◌, ◌++◌, map, IfOk, OnOk};
ghost use Rattle.threadlet_code.specs.declared.code.Code.{Code};
ghost use Rattle.world_model.specs.Cells.{AreCells};
ghost use Rattle.sim_core.specs.code.CellsBelow.{cell_at};
ghost use Rattle.sim_core.specs.Kept.{core_in};
ghost use Rattle.sim_core.specs.Shown.{cells_in};

use crate::machine::Core;
use std::alloc::AllocError;
use word_ops::{Cell, List};

impl Core {
    /// The words that are not 0, in order of nodelet and address (docs/machine.md, "Words").
    pub fn cells(&self) -> Result<List<Cell>, AllocError>
        ensures { IfOk result (λ cells. (code : Code) → AreCells (cells_in (core_in code self.now)) cells) }
    {
        let mut cells = List::new(self.alloc);
        for k in 0..self.count {
            let words = self.node(k).words().listed()?;
            add_cells(&mut cells, k, &words)?;
        }
        Ok(cells)
    }
}

/// Adds the words of a nodelet, each behind its address.
fn add_cells(
    cells: &mut List<Cell>,
    nodelet: u32,
    words: &List<(i64, i64)>,
) -> Result<(), AllocError>
    ensures { OnOk result (cells.new ≡ cells.old ++ map (cell_at nodelet) words.now) }
{
    for i in 0..words.len() {
        let (address, word) = *words.at(i);
        cells.add(Cell {
            nodelet,
            address,
            word,
        })?;
    }
    Ok(())
}

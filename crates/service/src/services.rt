//! The services of one nodelet.

ghost use Rattle.std.specs.Prelude.{◌≡◌, ℕ, ◌≤◌, [], ◌∷◌, ◌++◌, IfErr, OnOk, OnErr};
ghost use Rattle.data_layout.specs.Cursor.{first_cursor};
ghost use Rattle.data_layout.specs.CursorTable.{cursor_of};
ghost use Rattle.service.specs.Requests.{IsAtOneOf, taken_by, address_of, cursors_then};

use super::requests::{AllocKind, taken};
use data_layout::Cursors;
use std::alloc::Global;
use std::marker::Model;
use word_ops::List;

/// The pieces that were printed at a nodelet, and the cursors of the views
/// (docs/machine.md, "Pieces and addresses in the simulator").
#[derive(Debug, Drop)]
pub struct Services {
    pieces: List<List<u8>>,
    cursors: Cursors,
}

impl Model for Services {
    ghost use Rattle.std.specs.Prelude.{◌≤◌};
    ghost use Rattle.service.specs.ServiceState.{ServiceState};

    ghost Value = { ServiceState };

    ghost view = { λ s. record { pieces = s.pieces; cursors = s.cursors } };

    ghost invariant = { λ s. s.cursors.nodelets ≤ 64 };
}

impl Services {
    /// No pieces, and the cursors of `n` nodelets before any allocation, where `globals` words of plain globals
    /// stand at nodelet 0 and `replicated` words of replicated ones at each; pieces grow on `alloc`
    /// (docs/machine.md, "Allocation").
    pub fn new(alloc: Global, n: u32, globals: u32, replicated: u32) -> Services
        requires nodelets { (1 ≤ n) × (n ≤ 64) }
        ensures pieces { result.pieces ≡ [] }
        ensures cursors { (v : ℕ) → cursor_of result.cursors v ≡ first_cursor n globals replicated v }
        ensures nodelets { result.cursors.nodelets ≡ n }
    {
        Services {
            pieces: List::new(alloc),
            cursors: Cursors::new(n, globals, replicated),
        }
    }

    /// Keeps a piece of output behind those before it. Want of memory hands it back and changes nothing
    /// (docs/machine.md, "Pieces and addresses in the simulator").
    pub fn print(&mut self, piece: List<u8>) -> Result<(), List<u8>>
        ensures ok { OnOk result (self.new.pieces ≡ self.old.pieces ++ piece ∷ []) }
        ensures err { OnErr result (self.new ≡ self.old) }
        ensures handed_back { IfErr result (λ back. back ≡ piece) }
        ensures cursors { self.new.cursors ≡ self.old.cursors }
    {
        self.pieces.push(piece)
    }

    /// The pieces, the first one printed first.
    pub fn pieces(&self) -> &List<List<u8>>
        ensures { result.now ≡ self.now.pieces }
    {
        &self.pieces
    }

    /// The pieces, the first one printed first, which are moved.
    pub fn into_pieces(self) -> List<List<u8>>
        ensures { result ≡ self.pieces }
    {
        let Services { pieces, .. } = self;
        pieces
    }

    /// Serves a request for `n` words or, where it is `Blocked`, for `b` blocks of `n` words each; no other kind
    /// looks at `b`. The answer is the address of the first word, or 0 where nothing is taken or the view has no
    /// room, and then no cursor moves. Takes no memory (docs/machine.md, "Actions" and "Allocation").
    pub fn serve(&mut self, kind: AllocKind, b: i64, n: i64) -> i64
        requires nodelet { IsAtOneOf self.old.cursors.nodelets kind }
        ensures address { result ≡ address_of (cursor_of self.old.cursors) (taken_by kind b n) }
        ensures cursors { (v : ℕ) → cursor_of self.new.cursors v
            ≡ cursors_then self.old.cursors.nodelets (cursor_of self.old.cursors) (taken_by kind b n) v }
        ensures nodelets { self.new.cursors.nodelets ≡ self.old.cursors.nodelets }
        ensures pieces { self.new.pieces ≡ self.old.pieces }
    {
        let cursors = &mut self.cursors;
        match taken(kind, b, n) {
            Some(it) => cursors.alloc_view(it.view, it.count),
            None => 0,
        }
    }
}

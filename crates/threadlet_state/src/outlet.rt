ghost use Rattle.std.specs.Prelude.{◌≡◌, ◌≢◌, ℕ, ◌+◌, ◌≤◌, List, [], ◌∷◌, ◌++◌, Bool, true, OnOk};
ghost use Rattle.threadlet_state.specs.declared.packet.Packet.{Packet};

use crate::packet::Packet;
use std::alloc::AllocError;

/// The ways from a nodelet to others (docs/machine.md, "Contexts and packets"): which nodelets they
/// reach, what each was made as, what was sent on it so far, and for how many packets more there is room.
pub trait Outlet {
    ghost Way: { Type 0 };

    ghost reaches: { Self → ℕ → Bool };

    ghost made: { Self → ℕ → Way };

    ghost sent: { Self → ℕ → List Packet };

    ghost spare: { Self → ℕ → ℕ };

    /// Makes room for at least `more` packets on the way to the nodelet `to`, and sends nothing. Want of
    /// memory leaves at least the room that there was.
    fn reserve(&mut self, to: u32, more: usize) -> Result<(), AllocError>
        requires { reaches self.old to ≡ true }
        ensures room { OnOk result (more ≤ spare self.new to) }
        ensures kept { (k : ℕ) → spare self.old k ≤ spare self.new k }
        ensures reaches { (k : ℕ) → reaches self.new k ≡ reaches self.old k }
        ensures made { (k : ℕ) → made self.new k ≡ made self.old k }
        ensures sent { (k : ℕ) → sent self.new k ≡ sent self.old k };

    /// Sends a packet to the nodelet `to`, where there is room; takes no memory and cannot fail.
    fn send(&mut self, to: u32, packet: Packet)
        requires reaches { reaches self.old to ≡ true }
        requires room { 1 ≤ spare self.old to }
        ensures sent { sent self.new to ≡ sent self.old to ++ packet ∷ [] }
        ensures spare { spare self.new to + 1 ≡ spare self.old to }
        ensures sent_elsewhere { (k : ℕ) → k ≢ to → sent self.new k ≡ sent self.old k }
        ensures spare_elsewhere { (k : ℕ) → k ≢ to → spare self.new k ≡ spare self.old k }
        ensures reaches { (k : ℕ) → reaches self.new k ≡ reaches self.old k }
        ensures made { (k : ℕ) → made self.new k ≡ made self.old k };
}

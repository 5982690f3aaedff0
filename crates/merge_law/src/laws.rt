//! What holds of every merge. Each function here does nothing; its contract is the law.

ghost use Rattle.merge_law.specs.Laws.{MergedIsInOrder, MergedIsLegal, MergedKeepsParts, ReplaysGoOn, StampsAreCounted, PartsAreCounted};

/// Merged entries stand by stamp, then nodelet, then place in the part (docs/machine.md, "Merged
/// entries").
pub fn law_merged_order()
    ensures { MergedIsInOrder }
{}

/// The events of merged parts that are whole are legal, and lead to just their nodes and to what waits on
/// their links, for any machine with nodes `V` and packets `P` of bodies `B` (docs/machine.md, "Merged
/// entries").
pub fn law_merged_legal<V, B, P>()
    ensures legal { MergedIsLegal V B P }
    ensures parts { MergedKeepsParts V B P }
{}

/// A nodelet's replay goes on by its next event (docs/machine.md, "Merged entries").
pub fn law_replay<V, B, P>()
    ensures { ReplaysGoOn V B P }
{}

/// From nodes with stamp 0 on, no stamp is more than the number of all entries (docs/machine.md, "Events
/// and entries").
pub fn law_stamps<V, B, P>()
    ensures of_events { StampsAreCounted V B P }
    ensures of_parts { PartsAreCounted V B P }
{}

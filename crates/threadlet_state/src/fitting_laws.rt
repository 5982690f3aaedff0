//! What holds of frames that fit, as functions that do nothing and whose contracts are the laws.

ghost use Rattle.threadlet_state.specs.Fit.{FramesFit, StatesFit};

/// Frames that fit verified code are a state that fits it (docs/machine.md, "Contexts and packets").
pub fn law_frames_fit()
    ensures { FramesFit }
{}

/// Frames that have the words of their functions fit where their state does (docs/machine.md, "Contexts
/// and packets").
pub fn law_states_fit()
    ensures { StatesFit }
{}

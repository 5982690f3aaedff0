use word_ops::Name;

/// What happens in a core at once (docs/machine.md, "Events and entries").
#[derive(Clone, Copy, PartialEq, Eq, Debug)]
pub enum Event {
    /// The context of this strand goes on at `nodelet`.
    Run { nodelet: u32, name: Name },
    /// The first packet on the link from `origin` is taken at `nodelet`.
    Take { origin: u32, nodelet: u32 },
}

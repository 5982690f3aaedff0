/// What the program is to do (docs/outputs.md, "Modes").
#[derive(Clone, Copy, Debug, PartialEq, Eq)]
pub enum Mode {
    Check,
    Emit,
    Run,
    Gen,
    Replay,
    Audit,
    Exec,
    Time,
    Upgrade,
}

/// What the words ask for (docs/outputs.md, "Command line").
#[derive(Clone, Copy, Debug, PartialEq, Eq)]
pub struct Asked {
    pub mode: Mode,
    /// How many nodelets the machine has, 1 to 64.
    pub n: u32,
    /// How many turns each nodelet may make, 1 to 2^40.
    pub turns: u64,
    /// The seed of a serial run, where one is asked for.
    pub serial: Option<u64>,
    pub report: bool,
    pub memory: bool,
    pub journal: bool,
    /// The number of a workload that stands in for the source, 0 to 1,000,000.
    pub workload: Option<u64>,
    pub watch: bool,
}

/// Why the words ask for nothing.
#[derive(Clone, Copy, Debug, PartialEq, Eq)]
pub enum WordsRefusal {
    BadWords,
    OutOfMemory,
}

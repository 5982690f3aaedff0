use cilk_ast::TextFault;
use threadlet_code::Verified;
use traffic_report::Ran;

/// Why a source was refused: it is too long, or its text has this fault.
#[derive(Clone, Copy, PartialEq, Eq, Debug)]
pub enum SourceFault {
    TooLong,
    Text(TextFault),
}

/// What a call came to (docs/outputs.md, "Statuses"): the status, the run where one was made, the fault
/// where the source was refused, and the code where it was asked for or run.
#[derive(Debug, Drop)]
pub struct Ended {
    pub status: u8,
    pub ran: Option<Ran>,
    pub fault: Option<SourceFault>,
    pub code: Option<Verified>,
}

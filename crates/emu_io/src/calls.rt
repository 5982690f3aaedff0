ghost use Rattle.std.specs.Prelude.{◌≡◌, is_err, Some};

use crate::source::Failed;
use word_ops::List;

/// The numbers of the calls that fail, from 0, and how far the calls have come.
#[derive(Debug, Drop)]
pub struct Calls {
    failing: List<u64>,
    // None behind the last number, so that no later call has one.
    next: Option<u64>,
    faults: u64,
}

impl Calls {
    ghost use Rattle.emu_io.specs.Schedule.{calls_behind, is_failing};

    /// Before the first call.
    pub fn new(failing: List<u64>) -> Calls
        ensures { result ≡ record { failing = failing; next = Some 0; faults = 0 } }
    {
        Calls {
            failing,
            next: Some(0),
            faults: 0,
        }
    }

    /// Counts a call, and a fault where the call's number is one that fails.
    pub fn count(&mut self) -> Result<(), Failed>
        ensures failing { is_err result ≡ is_failing self.old }
        ensures counted { self.new ≡ calls_behind self.old }
    {
        let Some(number) = self.next else {
            return Ok(());
        };
        self.next = number.checked_add(1);
        if self.failing.as_slice().contains(&number) {
            self.faults = self.faults.saturating_add(1);
            return Err(Failed);
        }
        Ok(())
    }
}

//! What holds of schedules. The function does nothing; its contract is the law.

ghost use Rattle.serial_sim.specs.Schedule.{OneSchedule};

/// From a core and a generator on, the schedule is one (docs/machine.md, "Serial runs").
pub fn law_schedule()
    ensures { OneSchedule }
{}

//! That what stands with each status of a run keeps the promise.
ghost use Rattle.ram_machine.specs.declared.status.Status.{Status};
ghost use Rattle.ram_script.specs.RunCounts.{Counts};
ghost use Rattle.ram_script.specs.Progress.{Beginning};
ghost use Rattle.ram_script.specs.Endings.{Aftermath, StandsWith};
ghost use Rattle.ram_script.specs.Promise.{KeepsBytes};

/// Each sector is a register over the lines that a run answered, however it ended.
///
/// # Clauses
///
/// - What stands with each status keeps the promise, `KeepsBytes`.
pub fn each_status_keeps_the_promise()
    ensures { (first : Beginning) (after : Aftermath) (old new : Counts) (status : Status)
        → StandsWith first after old new status
        → KeepsBytes first.script first.report first.image after.written }
{}

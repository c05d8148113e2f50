//! Laws of the definitions: functions that do nothing, whose contracts are proved.

ghost use Rattle.std.specs.Prelude.{◌≢◌, Option, Result};
ghost use Rattle.pdb_resolving.specs.declared.failures.Part.{Part};
ghost use Rattle.pdb_resolving.specs.declared.error.Error.{Error};
ghost use Rattle.pdb_resolving.specs.declared.error.Error.TheVariants.{OutOfMemory};
ghost use Rattle.pdb_resolving.specs.Fault.{Fault};
ghost use Rattle.pdb_frames.specs.FailingParts.{Failures, failed_after};
ghost use Rattle.pdb_answers.specs.FailedLaws.{IsTold, LeavesFailed, Stand};

/// A question that fails in a part, unless memory runs out, leaves the part as failed. A fault in
/// it is then reported as its `..Unsuccessful` variant. No question removes a part that stands as
/// failed.
pub fn failed_parts_stand<A>()
    ensures kept { (part : Part) (e : Error) (f : Failures) → e ≢ OutOfMemory
        → LeavesFailed A part e f }
    ensures again { (part : Part) (e : Error) (f : Failures) (fault : Fault) → e ≢ OutOfMemory
        → IsTold A part e f fault }
    ensures stay { (part : Option Part) (result : Result A Error) (f : Failures)
        → Stand f (failed_after part result f) }
{}

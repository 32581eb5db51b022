// What holds of every run of a worker.

ghost use Rattle.std.specs.Prelude.{List};
ghost use Rattle.da_base.specs.Words.{Bytes};
ghost use Rattle.da_outside.specs.Outside.{Outside};
ghost use Rattle.da_worker.specs.declared.worker.WorkerStatus.{WorkerStatus};
ghost use Rattle.da_worker.specs.Run.{Ran, IsGood, IsAnswered};

/// A run over an input whose lines are all queries, and in which neither the input nor the output failed, answered the
/// whole input, or wanted memory.
pub fn a_good_input_is_answered()
    ensures { (pass users : List Bytes) (before after : Outside) (status : WorkerStatus)
        → Ran pass users before after status → IsGood before after → IsAnswered status }
{}

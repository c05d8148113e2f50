//! The end of a run.

ghost use Rattle.std.specs.Prelude.{◌≡◌, IsOk, IfErr};
ghost use Rattle.pdb_report.specs.ToldFault.{TellsFault};

use crate::fault::RunFault;
use crate::told::tell;
use pdb_engine::ErrorOutput;

/// The exit status of a run: 0 if it succeeded, and otherwise 1, once its fault was written to
/// `errors` in one line, `fault: ` and the text that the fault prints. A write to `errors` that
/// fails is ignored, and ends the line. It takes no memory.
#[tactic(auto, using(crate::proofs::Pieces::told_either))]
pub fn finish_run<W: ErrorOutput>(outcome: Result<(), RunFault>, errors: &mut W) -> u8
    ensures ok { IsOk outcome → (result ≡ 0) × (errors.new ≡ errors.old) }
    // The whole line is written, or a write failed.
    ensures fault { IfErr outcome (TellsFault W.contents W.failures W.has_failed errors.old
        errors.new) }
    ensures status { IfErr outcome (λ _. result ≡ 1) }
{
    match outcome {
        Ok(()) => 0,
        Err(fault) => {
            let _ = tell(&fault, errors);
            1
        }
    }
}

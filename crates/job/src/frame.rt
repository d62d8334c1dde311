ghost use Rattle.std.specs.Prelude.{◌≡◌, ◌≤◌, length, replicate, Ok, Err, IfErr, MatchResult, if◌then◌else◌, nat_lt};
ghost use Rattle.job.specs.Faults.{fault_of};
ghost use Rattle.job.specs.Reports.{Lined, fault_line, min_output, padded};
ghost use Rattle.job.specs.declared.faults.JobFault.TheVariants.{SmallOutput};

use crate::answers::put_fault;
use crate::faults::JobFault;
use crate::report::MIN_OUTPUT;
use fault::refusal::Refusal;
use output::output::Output;

// Fills the output of a job with zeros, and refuses an output that a fault line might not fit.
pub(crate) fn clear(out: &mut [u8]) -> Result<(), JobFault>
    ensures answer { result ≡ (if nat_lt (length out.old) min_output then Err SmallOutput else Ok tt) }
    ensures zeros { out.new ≡ replicate (length out.old) 0 }
{
    out.fill(0);
    if out.len() < MIN_OUTPUT {
        return Err(JobFault::SmallOutput);
    }
    Ok(())
}

// Passes on what a job answers; a refusal leaves its fault line in the output, and zeros behind it.
pub(crate) fn settle(out: &mut [u8], answer: Result<usize, JobFault>) -> Result<usize, JobFault>
    requires room { min_output ≤ length out.old }
    requires near { IfErr answer Lined }
    ensures answer { result ≡ answer }
    ensures output { MatchResult answer (λ _. out.new ≡ out.old) (λ fault. out.new ≡ padded (length out.old) (fault_line (fault_of fault))) }
{
    if let Err(fault) = answer {
        out.fill(0);
        let _ = put_fault(&mut Output::new(out, 0), fault.fault());
    }
    answer
}

ghost use Rattle.std.specs.Prelude.{◌≡◌};
ghost use Rattle.fault.specs.declared.Fault.{Fault};

use crate::Fault;

// A reason why a call was refused.
pub trait Refusal {
    // What the refusal tells, as clauses name it.
    ghost tells: { Self → Fault };

    // What the refusal tells: its letter, number, line and byte.
    fn fault(&self) -> Fault
        ensures told { result ≡ tells self.now };
}

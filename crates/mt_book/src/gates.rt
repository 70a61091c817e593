//! What happens between two lock periods, while the lock is free.

ghost use Rattle.std.specs.Prelude.{◌≡◌, ℕ};
ghost use Rattle.mt_operation.specs.declared.phase.Phase.{Phase as AnyPhase};

use mt_operation::Phase;

/// Called between the periods of a call, with the operation's id and what its next step does.
pub trait Gate {
    /// That it was called so. A gate may say nothing by it.
    ghost turned: { Self → ℕ → AnyPhase → Type 0 };

    fn turn(&self, op: u64, phase: Phase)
        ensures { turned self.now op phase };
}

/// The gate that does nothing.
#[derive(Clone, Copy, Drop)]
pub struct NoGate {}

impl Gate for NoGate {
    ghost turned = { λ gate op phase. Unit {0} };

    fn turn(&self, _op: u64, _phase: Phase) {}
}

/// That a gate was called for this operation with this phase, after a period that showed so many
/// steps. Only `passed` makes one, and each step uses one up.
pub struct Turned {
    op: u64,
    phase: Phase,
    after: u64,
}

/// Calls the gate.
pub fn passed<G: Gate>(gate: &G, op: u64, phase: Phase, after: u64) -> Turned
    ensures op { result.op ≡ op }
    ensures phase { result.phase ≡ phase }
    ensures after { result.after ≡ after }
    ensures called { G.turned gate.now op phase }
{
    gate.turn(op, phase);
    Turned { op, phase, after }
}

impl Turned {
    /// The operation whose step it allows; the token is used up.
    pub fn spend(self) -> u64
        ensures { result ≡ self.op }
    {
        let Turned {
            op,
            phase: _,
            after: _,
        } = self;
        op
    }
}

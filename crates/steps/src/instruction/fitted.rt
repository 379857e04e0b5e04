// What is said of an outcome whose letters may not fit.
ghost use Rattle.std.specs.Prelude.{◌≡◌, ◌≤◌};
ghost use Rattle.rig_parts.specs.declared.change.Scope.{Scope};
ghost use Rattle.rig_parts.specs.declared.sweep.Sweep.{Sweep};
ghost use Rattle.rig_parts.specs.RunVerdicts.{change, fitting_in};
ghost use Rattle.board.specs.Acted.{act_of};

use board::act::{Act, Size, accepted, fits, refused};
use rules::rule::Outcome;
use rules::step::StepRefusal;

// Accepted, or the mail is full.
pub fn fitted(n: Size, o: Outcome) -> Act
    requires { n.used ≤ 256 }
    ensures { (k : Scope) (s : Sweep) → result ≡ act_of (fitting_in n.processors n.used (change k o s)) }
{
    if !fits(n, o.posting) {
        return refused(Err(StepRefusal::NetworkFull));
    }
    accepted(o)
}

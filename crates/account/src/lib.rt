// The plain account of a book: what each call answers and leaves, stated with no program in sight.
#![tactic(auto)]

ghost use Rattle.account.specs.Kept.{RunKept};
ghost use Rattle.account.specs.Laws.{StepDetermined, RunDetermined, FileExact, LodgeExact};

// The account is a function of what it is fed; it takes a page exactly where it should; and what every list of calls leaves true of it.
pub fn account_laws()
    ensures step { StepDetermined }
    ensures run { RunDetermined }
    ensures file { FileExact }
    ensures lodge { LodgeExact }
    ensures kept { RunKept }
{}

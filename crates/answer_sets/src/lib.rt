// When ranks bear a set, the published definition of answer sets, and the theorems that tie the two together.
#![tactic(auto)]

ghost use Rattle.std.specs.List.{AllByRecursion};
ghost use Rattle.answer_sets.specs.Examples.{Verdict, examples};
ghost use Rattle.answer_sets.specs.Theorems.{BorneIsAnswerSet, RoundsBear, Minimal, Given, ComplementReduct, WaysAgree, StagesExist};

// The theorems, for the layers above to cite.
pub fn bearing_laws()
    ensures published { BorneIsAnswerSet }
    ensures rounds { RoundsBear }
    ensures minimal { Minimal }
    ensures given { Given }
    ensures weaker { ComplementReduct }
    ensures agree { WaysAgree }
    ensures stages { StagesExist }
{}

// Worked examples of the theory.
pub fn worked_examples()
    ensures { AllByRecursion Verdict examples }
{}

// Examples of the definitions, proved: the worked ones as one table, and runs of the independent program.
#![tactic(auto)]

ghost use Rattle.worked_examples.specs.Generated.{AllAgree};
ghost use Rattle.worked_examples.specs.Worked.{WorkedExamples};

// Each carries its statement alone: it does nothing.
pub fn worked_examples()
    ensures { WorkedExamples }
{}

pub fn definitions_agree_with_the_independent_program()
    ensures { AllAgree }
{}

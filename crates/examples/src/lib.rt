// Worked examples of credit, of splitting and of coming back: shown from the definitions, and tried on a link.
#![tactic(auto)]

ghost use Rattle.examples.specs.Examples.{WorkedExamples};

pub fn worked_examples_hold()
    ensures { WorkedExamples }
{}

#[cfg(test)]
mod returning;
#[cfg(test)]
mod tests;

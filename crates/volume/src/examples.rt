// The worked examples of the rules.
ghost use Rattle.volume.specs.Examples.{ExamplesHold};

// What holds of the example files, by the terms of the calls' contracts; there is nothing to run.
#[tactic(auto, using(crate::proofs::Worked::hold))]
pub(crate) fn examples_hold()
    ensures { ExamplesHold }
{}

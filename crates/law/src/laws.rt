// Laws of lists of calls. Each function here stands for its theorem; there is nothing to run.
ghost use Rattle.law.specs.Example.{TwinExample};
ghost use Rattle.law.specs.Runs.{EveryRun};
ghost use Rattle.law.specs.TwoRuns.{TwoRuns};

/// The law holds of what every list of calls makes of an empty shelf.
#[tactic(auto, using(crate::proofs::InLaw::every_run))]
pub fn every_run()
    ensures { EveryRun }
{}

/// Two lists of calls that are the same but for twin files are answered alike.
#[tactic(auto, using(crate::proofs::Running::two_runs))]
pub fn two_runs()
    ensures { TwoRuns }
{}

/// Two such lists, with their answers.
#[tactic(auto, using(crate::proofs::Worked::holds))]
pub fn twin_example()
    ensures { TwinExample }
{}

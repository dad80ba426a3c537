// The rules hold in each of the worked cases.
#![tactic(auto)]

ghost use Rattle.cases.specs.Scripts.{AllPlay};
ghost use Rattle.cases.specs.Table.{cases};

// Every case of the table plays from the empty store.
pub fn cases_hold()
    ensures { AllPlay cases }
{}

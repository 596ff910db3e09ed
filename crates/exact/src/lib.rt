#![tactic(auto)]

ghost use Rattle.exact.specs.Laws.{Laws};

// The mathematics behind the calls, on one axis: the accuracy of every point of every pile of workings, and its box.
pub fn laws()
    ensures { Laws }
{}

// A permutation leaves no number out. The call does nothing; its contract is the law.
ghost use Rattle.permutations.specs.Onto.{EveryNumberStandsOnce};

pub fn every_number_stands_once()
    ensures { EveryNumberStandsOnce }
{}

// The law of the rounds, whatever the widths of the halves and whatever the function.
ghost use Rattle.keyed_supply.specs.Rounds.{DirectionsUndoEachOther};

// Carries the law alone: it does nothing.
pub fn directions_undo_each_other()
    ensures { DirectionsUndoEachOther }
{}

// When a call is declined, by which number, and what a declined call leaves: of every run, whatever was accepted and declined before.
// Each call does nothing; its contract is the law.
ghost use Rattle.laws.specs.Histories.{AcceptedCallsTakeTurns, DeclinedCallsCanBeLeftOut, DeclinedCallsChangeNothing, LevelsOccupiedByBits, RunsGoCallByCall};
ghost use Rattle.laws.specs.RefusalExamples.{RefusalsByExample};
ghost use Rattle.laws.specs.Refusals.{AccessDeclinedExactlyWhen, EntriesFillTheRoom, LoadDeclinedExactlyWhen, OpeningRefusesExactlyWhen, RebuildDeclinedExactlyWhen, RebuildEntriesFillTheRoom};

pub fn opening_refuses_exactly_when()
    ensures { OpeningRefusesExactlyWhen }
{}

pub fn load_declined_exactly_when()
    ensures { LoadDeclinedExactlyWhen }
{}

pub fn access_declined_exactly_when()
    ensures { AccessDeclinedExactlyWhen }
{}

pub fn rebuild_declined_exactly_when()
    ensures { RebuildDeclinedExactlyWhen }
{}

pub fn declined_calls_change_nothing()
    ensures { DeclinedCallsChangeNothing }
{}

pub fn runs_go_call_by_call()
    ensures { RunsGoCallByCall }
{}

pub fn accepted_calls_take_turns()
    ensures { AcceptedCallsTakeTurns }
{}

pub fn entries_fill_the_room()
    ensures { EntriesFillTheRoom }
{}

pub fn rebuild_entries_fill_the_room()
    ensures { RebuildEntriesFillTheRoom }
{}

pub fn declined_calls_can_be_left_out()
    ensures { DeclinedCallsCanBeLeftOut }
{}

pub fn levels_occupied_by_bits()
    ensures { LevelsOccupiedByBits }
{}

pub fn refusals_by_example()
    ensures { RefusalsByExample }
{}

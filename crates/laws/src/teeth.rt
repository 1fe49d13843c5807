// Which lists of calls are alike; and where lists do differ for the host, it sees it. Each call does nothing; its contract is the statement.
ghost use Rattle.laws.specs.Teeth.{DifferingListsShow, ReadsAndWritesAreAlike};

pub fn reads_and_writes_are_alike()
    ensures { ReadsAndWritesAreAlike }
{}

pub fn differing_lists_show()
    ensures { DifferingListsShow }
{}

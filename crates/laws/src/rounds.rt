// What an access asks of the host, and what decides it. Each call does nothing; its contract is the law.
ghost use Rattle.laws.specs.Keeping.{ListsAreRecentAddresses, TopListIsAllAddresses};
ghost use Rattle.laws.specs.OneRound.{NoSlotTwiceBetweenBuilds, OneSlotInEveryOccupiedLevel};

pub fn one_slot_in_every_occupied_level()
    ensures { OneSlotInEveryOccupiedLevel }
{}

pub fn no_slot_twice_between_builds()
    ensures { NoSlotTwiceBetweenBuilds }
{}

pub fn lists_are_recent_addresses()
    ensures { ListsAreRecentAddresses }
{}

pub fn top_list_is_all_addresses()
    ensures { TopListIsAllAddresses }
{}

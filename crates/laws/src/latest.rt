// The laws of the bytes over whole runs, and of where a fill puts them. Each call does nothing; its contract is the law.
ghost use Rattle.laws.specs.Keeping.{OccupiedLevelsHold, RebuildsKeepEveryBlock};
ghost use Rattle.laws.specs.LatestWrite.{ReadsGiveTheLatestWrite};
ghost use Rattle.laws.specs.Seats.{EverySlotAtItsSeat};

pub fn reads_give_the_latest_write()
    ensures { ReadsGiveTheLatestWrite }
{}

pub fn rebuilds_keep_every_block()
    ensures { RebuildsKeepEveryBlock }
{}

pub fn occupied_levels_hold()
    ensures { OccupiedLevelsHold }
{}

pub fn every_slot_at_its_seat()
    ensures { EverySlotAtItsSeat }
{}

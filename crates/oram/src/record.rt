// What the client keeps of each level.
ghost use Rattle.std.specs.Prelude.{◌≡◌, slice_set};
ghost use Rattle.oram.specs.Records.{vacant_table};

use shape::level::Level;

// The rules have a record say whether its level is occupied; a vacant one is zero throughout.
#[derive(Clone, Copy, PartialEq, Eq, Default, Debug)]
pub struct Record {
    pub occupied: bool,
    pub size: u32,
    pub counter: u32,
    pub build: u32,
}

// One record for each level, an array since calls never allocate; what lies above the highest level stays vacant.
#[derive(Clone, Copy)]
pub struct Table {
    pub(crate) records: [Record; 13],
}

impl Table {
    pub(crate) fn vacant() -> Table
        ensures { result ≡ vacant_table }
    {
        Table {
            records: [Record::default(); 13],
        }
    }

    pub(crate) fn put(&mut self, level: Level, record: Record)
        ensures { self.new.records ≡ slice_set self.old.records level.number «record» }
    {
        self.records[level.number as usize] = record;
    }
}

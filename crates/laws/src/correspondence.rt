// What the host sees tells nothing of the blocks named, of reading or writing, and of the bytes. The call does nothing; its contract is the
// statement.
ghost use Rattle.laws.specs.Correspondence.{TracesCorrespond};

pub fn traces_correspond()
    ensures { TracesCorrespond }
{}

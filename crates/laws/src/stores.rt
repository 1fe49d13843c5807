// What the store and the index do not show. The call does nothing; its contract is the law.
ghost use Rattle.laws.specs.Correspondence.{StoreAndIndexDoNotShow};

pub fn store_and_index_do_not_show()
    ensures { StoreAndIndexDoNotShow }
{}

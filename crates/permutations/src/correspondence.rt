// The laws of scripts and their views. Each call does nothing; its contract is the law.
ghost use Rattle.permutations.specs.Laws.{BuildsShow, ChoicesExist, ListsExtend, OutlinesShow, PartnersByExample, RepeatsShow, ScriptsCorrespond, SlotsAskedByIndex, TablesCorrespond};

pub fn lists_extend()
    ensures { ListsExtend }
{}

pub fn tables_correspond()
    ensures { TablesCorrespond }
{}

pub fn scripts_correspond()
    ensures { ScriptsCorrespond }
{}

pub fn choices_exist()
    ensures { ChoicesExist }
{}

pub fn slots_asked_by_index()
    ensures { SlotsAskedByIndex }
{}

pub fn partners_by_example()
    ensures { PartnersByExample }
{}

pub fn outlines_show()
    ensures { OutlinesShow }
{}

pub fn builds_show()
    ensures { BuildsShow }
{}

pub fn repeats_show()
    ensures { RepeatsShow }
{}

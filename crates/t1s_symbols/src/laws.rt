//! Laws over the table of symbols and groups.

ghost use Rattle.t1s_symbols.specs.GroupTable.{NoSharedGroup, UndoEachOther};

/// No two symbols have one group.
pub fn no_shared_group()
    ensures { NoSharedGroup }
{}

/// The group of a symbol gives that symbol back, and the symbol of a group that group.
pub fn undo_each_other()
    ensures { UndoEachOther }
{}

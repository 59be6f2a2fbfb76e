//! Laws of tables, for callers to cite.

ghost use Rattle.rights_table.specs.Lacks.{TablesTell};
ghost use Rattle.rights_table.specs.Whole.{TablesLearn};

/// A table tells what its replica holds.
pub fn tables_tell()
    ensures { TablesTell }
{}

/// A table stays one where the logs grow by what its replica's log doesn't speak of.
pub fn tables_learn()
    ensures { TablesLearn }
{}

//! The law of columns. The function does nothing: its contract is the law.
ghost use Rattle.index_commands.specs.Laws.{ColumnsLineUp};

/// In a text whose cells fit their columns, the cells of a column begin below each other.
pub fn columns_line_up()
    ensures { ColumnsLineUp }
{}

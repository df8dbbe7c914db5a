//! A law of the lines of an index. The function does nothing: its contract is the law.
ghost use Rattle.volume_index.specs.Laws.{ObjectsAreLines};

/// Each line of an index is one line as a JSON object, whatever stands in its columns: no name can tear it.
pub fn object_lines()
    ensures { ObjectsAreLines }
{}

// The theorem that stands above the definitions, the contract of a function.
ghost use Rattle.commands.specs.Laws.{LinesAreExact};

// A line is read from the text that writes it, and from no other.
pub fn lines_are_exact()
    ensures { LinesAreExact }
{}

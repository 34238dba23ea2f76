//! What the program says of its words is what it takes.
ghost use Rattle.command_line.specs.UsageLaws.{TellsDefaults, TellsNumbers};

/// The numbers in the text for usage are the limits of the grammar, and its defaults those that are taken. It does nothing: its contract is the law.
pub fn usage_tells_the_grammar()
    ensures numbers { TellsNumbers }
    ensures defaults { TellsDefaults }
{}

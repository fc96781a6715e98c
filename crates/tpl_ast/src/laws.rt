// Laws of templates.
ghost use Rattle.tpl_ast.specs.Laws.{FixedLengthsAreExact, LengthsBound, LinesTellExpansions, SizesFall};

/// Does nothing. Its contract says how the sizes of bodies fall at each step into a body, by which recursions
/// over items end.
pub fn size_law()
    ensures { SizesFall }
{}

/// Does nothing. Its contract says that what a body is expanded to is told by its lines.
pub fn expansion_law()
    ensures { LinesTellExpansions }
{}

/// Does nothing. Its contract says that a body is expanded to at most as many records as its length says, and as
/// just as many where their number is left to no choice.
pub fn length_laws()
    ensures bound { LengthsBound }
    ensures exact { FixedLengthsAreExact }
{}

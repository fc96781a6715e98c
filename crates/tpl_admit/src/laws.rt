// Laws of certificates.
ghost use Rattle.tpl_admit.specs.Laws.{SaidDecides};

use tpl_ast::expansion_law;

/// Does nothing. Its contract says that a certificate stays valid with another template that says the same.
pub fn said_law()
    ensures { SaidDecides }
{
    expansion_law();
}

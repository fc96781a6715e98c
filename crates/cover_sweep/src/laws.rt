// Laws of the demo's texts.
ghost use Rattle.cover_sweep.specs.Laws.{DemosAreRead, DemosAreTemplates, SummariesAreShort};

use dom_set::set_laws;
use tpl_lang::statement_law;

/// Does nothing. Its contract says that the demo template of each number up to 2,000 is a text of the language, what it
/// says, and that summaries are shorter than the room for a text.
pub fn demo_laws()
    ensures read { DemosAreRead }
    ensures templates { DemosAreTemplates }
    ensures short { SummariesAreShort }
{
    set_laws();
    statement_law();
}

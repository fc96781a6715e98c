// Laws of answers.
ghost use Rattle.tool_texts.specs.Laws.{OneAnswer, LimitsLoseNothing, RefusalsAreReported, TextsAreShort};

use cover_sweep::demo_laws;
use elf_image::{file_lengths, one_first_wrong, one_spelling};
use gen_turn::texts_tell_what_is_made;
use replay_check::one_verdict;
use tpl_admit::said_law;
use tpl_ast::expansion_law;
use tpl_lang::{language_laws, template_law};
use trace_text::length_laws;

/// Does nothing. Its contract says that a command has one answer at most to its bytes, that none rests on bytes behind
/// the command's limit, that only what was done, and a verdict on it, is told to `out`, and how long texts can be.
pub fn answer_laws()
    ensures one { OneAnswer }
    ensures limits { LimitsLoseNothing }
    ensures reported { RefusalsAreReported }
    ensures short { TextsAreShort }
{
    one_spelling();
    one_verdict();
    one_first_wrong();
    said_law();
    texts_tell_what_is_made();
    expansion_law();
    file_lengths();
    template_law();
    language_laws();
    length_laws();
    demo_laws();
}

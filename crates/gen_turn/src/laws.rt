// Laws of the search for a test of a template.
ghost use Rattle.gen_search.specs.Laws.{HasOneAnswer, ResultsAreBounded, StillAllows};
ghost use Rattle.gen_turn.specs.Laws.{DoneTestsAreAdmitted, DoneTestsFitFiles, GeneratedIsOne, SearchesHaveOneResult, TemplatesAreReady, TextsTellWhatIsMade};
ghost use Rattle.gen_turn.specs.Rules.{can_be_taken, draft_rules};

use crate::draft::Draft;
use gen_search::search_laws;
use leaf_link::{
    entries_are_by_places, fetches_have_one_answer, met_atoms_are_true, steps_are_fetched,
    values_are_by_places,
};
use leaf_turn::{answers_are_found, answers_are_playable, takings_are_one};
use tpl_lang::{leaf_law, template_law};
use turn_laws::given_places_are_known;

/// Does nothing. Its contract says that a leaf turn that can be taken has one answer at most, and that what can be taken
/// on a test can be taken on those that a leaf turn, a label and a choice make of it.
pub fn turns_have_one_answer()
    ensures one { HasOneAnswer can_be_taken draft_rules }
    ensures still { StillAllows can_be_taken draft_rules }
{
    leaf_link::turns_have_one_answer();
    fetches_have_one_answer();
    given_places_are_known();
    answers_are_found();
    answers_are_playable();
    takings_are_one();
}

/// Does nothing. Its contract says that all leaves and labels of a template can be taken on the test that begins as it
/// says, and so on every one that the search comes to.
pub fn templates_are_ready()
    ensures { TemplatesAreReady }
{
    template_law();
    leaf_law();
}

/// Does nothing. Its contract says that the search from a test on which all leaves and labels of its template can be
/// taken has one result at most, and that a result tells of at most as many leaf turns as were asked for.
pub fn searches_have_one_result()
    ensures one { SearchesHaveOneResult }
    ensures bounded { ResultsAreBounded draft_rules }
{
    turns_have_one_answer();
    search_laws::<Draft>();
}

/// Does nothing. Its contract says that what is made of a template, of a seed and of the budgets is one: the same test, or
/// that the search gave up with the same numbers.
pub fn generated_is_one()
    ensures { GeneratedIsOne }
{
    searches_have_one_result();
    templates_are_ready();
}

/// Does nothing. Its contract says that a text tells what is made of its template: the templates that one text is parsed as
/// differ in how their lists are kept alone.
pub fn texts_tell_what_is_made()
    ensures { TextsTellWhatIsMade }
{
    searches_have_one_result();
    templates_are_ready();
    search_laws::<Draft>();
}

/// Does nothing. Its contract says that the certificate of a test in which a search is done is admitted by its template,
/// and fits a file.
pub fn done_tests_are_certified()
    ensures admitted { DoneTestsAreAdmitted }
    ensures fit { DoneTestsFitFiles }
{
    template_law();
    templates_are_ready();
    turns_have_one_answer();
    met_atoms_are_true();
    steps_are_fetched();
    values_are_by_places();
    entries_are_by_places();
    answers_are_found();
}

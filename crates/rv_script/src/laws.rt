// The laws of all scripts, as contracts of functions that do nothing.
ghost use Rattle.std.specs.Prelude.{ℕ};
ghost use Rattle.std.specs.declared.option.Option.{Option};
ghost use Rattle.rv_script.specs.Script.{Question, Script};
ghost use Rattle.rv_script.specs.Laws.{BindLaw, WholeLaw, MoreLaw, LocalLaw, OnceLaw, SamePlayLaw, ToldLaw};

/// The answer on known places is that of every whole state that has them: what it does, the first place
/// that it needs and that isn't known, or that it has no step.
pub fn answers_are_those_of_whole_states<L, A>()
    ensures { (note : Question → ℕ → Option L) (s : Script A) → WholeLaw note s }
{}

/// What was done on known places is done in the same way where more is known.
pub fn more_knowledge_changes_nothing<L, A>()
    ensures { (note : Question → ℕ → Option L) (s : Script A) → MoreLaw note s }
{}

/// A step rests on the registers and CSRs that it asks for and on the bytes that it looks at alone.
pub fn steps_are_local<A>()
    ensures { (s : Script A) → LocalLaw s }
{}

/// One script and then another answer as one answer and then another.
#[tactic(auto, using(crate::proofs::Binds::bound))]
pub fn answers_go_on<L, A, B>()
    ensures { (note : Question → ℕ → Option L) (s : Script A) (next : A → Script B) → BindLaw note s next }
{}

/// What is told in a script that is played to its end: each answer of its log, the same step wherever the same is told
/// at these questions, and, where it asks in order, one answer for each label.
pub fn play_laws<A>()
    ensures told { (s : Script A) → ToldLaw s }
    ensures same { (s : Script A) → SamePlayLaw s }
    ensures once { (s : Script A) → OnceLaw s }
{}

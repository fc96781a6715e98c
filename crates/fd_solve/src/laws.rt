// Laws of answers.
ghost use Rattle.std.specs.Prelude.{ℕ};
ghost use Rattle.fd_prob.specs.Fitting.{IsProblem};
ghost use Rattle.fd_solve.specs.Dropping.{KeptAreExtended, LeafAnswersAreOfKept, LeafAnswersExist};
ghost use Rattle.fd_solve.specs.Laws.{AnswersExist, ArePivotsWords, HasOneAnswer, OperationsAreInOrder, OrderIsStrictAndTotal};

use crate::pivots::pivots_are_words;
use fd_prob::Problem;

/// Does nothing. Its contract says that the order in which assignments are compared is a strict one, and total
/// where the pivots are words.
pub fn order_law()
    ensures { OrderIsStrictAndTotal }
{}

/// Changes nothing. Its contract says that the pivots of a problem are words, so that the order of its
/// assignments is total, and that it has one answer under a budget.
pub fn answer_law(p: &Problem)
    requires { IsProblem p.now }
    ensures pivots { ArePivotsWords p.now }
    ensures one { (nodes : ℕ) → HasOneAnswer p.now nodes }
{
    pivots_are_words(p);
}

/// Does nothing. Its contract says that each problem, and each leaf, has an answer under each budget.
pub fn existence_law()
    ensures answers { AnswersExist }
    ensures leaves { LeafAnswersExist }
{}

/// Does nothing. Its contract says that the numbers of operations, by which a search goes from one to the next,
/// are in the order of the table of instructions.
pub fn operation_law()
    ensures { OperationsAreInOrder }
{}

/// Does nothing. Its contract says that biases are taken by extending the problem by those that are not listed as dropped, in
/// their order, and that the answer of a leaf is that of this problem.
pub fn leaf_law()
    ensures kept { KeptAreExtended }
    ensures answer { LeafAnswersAreOfKept }
{}

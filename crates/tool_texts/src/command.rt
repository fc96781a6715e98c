// What each command answers.
ghost use Rattle.std.specs.Prelude.{◌≡◌, ◌<◌, ℕ, List, length, IfOk};
ghost use Rattle.tpl_ast.specs.Limits.{text_room};
ghost use Rattle.tool_words.specs.Forms.{IsInRange};
ghost use Rattle.tool_words.specs.declared.command.Command.TheVariants.{Exec};
ghost use Rattle.tool_texts.specs.Answers.{number_of};
ghost use Rattle.tool_texts.specs.Commands.{Answers};

use crate::OutOfMemory;
use crate::answer::Answer;
use crate::demonstrating::demo_answer;
use crate::generating::gen_answer;
use crate::laws::answer_laws;
use crate::replaying::replay_answer;
use crate::running::exec_answer;
use crate::showing::show_answer;
use std::alloc::Global;
use tool_words::Command;

/// What a command, whose numbers lie in their ranges, answers to the bytes that it read.
pub fn answer_to(alloc: Global, command: Command, bytes: &[u8]) -> Result<Answer, OutOfMemory>
    requires { IsInRange command }
    ensures found { IfOk result (λ a. Answers command bytes.now (number_of a.status) a.out.items a.report.items) }
    ensures only { (s : ℕ) (o r : List ℕ) → Answers command bytes.now s o r → IfOk result (λ a. s ≡ number_of a.status) }
    ensures out_size { IfOk result (λ a. length a.out.items < text_room) }
    ensures report_size { IfOk result (λ a. length a.report.items < text_room) }
{
    answer_laws();
    answer_of(alloc, command, bytes)
}

fn answer_of(alloc: Global, command: Command, bytes: &[u8]) -> Result<Answer, OutOfMemory>
    requires { IsInRange command }
    ensures answer { IfOk result (λ a. Answers command bytes.now (number_of a.status) a.out.items a.report.items) }
    ensures run_size { (number : ℕ) → command ≡ Exec number → IfOk result (λ a. length a.out.items < text_room) }
{
    match command {
        Command::Gen(effort) => gen_answer(alloc, &effort, bytes),
        Command::Replay => replay_answer(alloc, bytes),
        Command::Exec(number) => exec_answer(alloc, number, bytes),
        Command::Show => show_answer(alloc, bytes),
        Command::Demo(n) => demo_answer(alloc, n),
    }
}

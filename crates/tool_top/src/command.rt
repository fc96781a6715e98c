// The top call.
ghost use Rattle.std.specs.Prelude.{◌≡◌, ◌≢◌, ◌≤◌, ◌⊎◌, IsTrue};
ghost use Rattle.tpl_ast.specs.Limits.{text_room};
ghost use Rattle.streams.specs.Causes.{Rose, EndsAtFault};
ghost use Rattle.streams.specs.Source.{TakesAtMost};
ghost use Rattle.streams.specs.Sink.{HasRoom, Tells};
ghost use Rattle.tool_words.specs.declared.command.Command.{Command as ACommand};
ghost use Rattle.tool_texts.specs.Answers.{is_answer};
ghost use Rattle.tool_words.specs.Commands.{limit_of, IsCommand};
ghost use Rattle.tool_top.specs.Promise.{AreCutShort, IsAllRead, IsAnswered, IsComplete, IsLeft, IsRefused, IsWritten, is_status, told_line, tells};

use crate::words::ArgList;
use crate::writing::write_answer;
use std::alloc::Global;
use streams::{ReadStop, Sink, Source, read_up_to, write_whole};
use tool_texts::{NoCommand, answer_laws, answer_to, words_law};

const USAGE: &[u8] =
    b"usage: testgen gen --seed N [--nodes N] [--turns N] | replay | exec --order N | show | demo N\n";

/// Does what the words ask for, and answers the status:
///
/// - 0: on `gen` the file of a test of the template that was read was written to `out`, and its report to `report`; on
///   `replay` the file of a valid certificate was read, and `yes` was written to `out`; on `exec` such a file was read,
///   and the steps of its run were written to `out`; on `show` a file was read, and its report was written to `out`; on
///   `demo` a test of the number's template was made and checked, and its summary was written to `out`;
/// - 2: the words are none of `gen --seed N [--nodes N] [--turns N]`, `replay`, `exec --order N`, `show` and `demo N`, or
///   of the other forms of these that are accepted; the usage line was written to `report`;
/// - 3: what was read is no template; a line that says why was written to `report`;
/// - 5: the search for a test of the template that was read or made gave up; a line with its numbers was written to
///   `report`;
/// - 6: a read failed; a line that says so was written to `report`;
/// - 7: a write of the texts of a command that was done failed;
/// - 8: memory ran out;
/// - 9: what was read is no file; a line with its first wrong part was written to `report`;
/// - 10: the file of a certificate that is not valid was read; its first failure was written to `out`, on `exec` behind the
///   steps of its run.
pub fn run<S: Source, K: Sink, R: Sink>(
    alloc: Global,
    words: &ArgList,
    source: &mut S,
    out: &mut K,
    report: &mut R,
) -> u8
    requires out_room { HasRoom (K.room out.old) text_room }
    requires report_room { HasRoom (R.room report.old) text_room }

    // Which statuses there are, and that 2 comes exactly where the words are those of no command, unless there was no
    // memory to read them.
    ensures status { IsTrue (is_status result) }
    ensures usage { result ≡ 2 → (command : ACommand) → IsCommand words.now command → ⊥ }
    ensures words { result ≢ 2 → result ≢ 8 → (command : ACommand) × IsCommand words.now command }

    // A status that is no fault of the words, of a device or of memory is what the command answers to the bytes that
    // were taken, and the texts of the answer were written.
    ensures sound { IsTrue (is_answer result) → (a : IsAnswered words.now (S.left source.old) (S.left source.new) result)
        × IsWritten result (K.held out.old) (K.held out.new) a.out (K.fault_at out.new) (K.faults out.old) (K.faults out.new)
        × IsWritten result (R.held report.old) (R.held report.new) a.report (R.fault_at report.new) (R.faults report.old) (R.faults report.new)
        × IsLeft a.out out.old out.new × IsLeft a.report report.old report.new }

    // Where a write of what was done failed, fronts of its texts were written.
    ensures cut { result ≡ 7 → (a : IsAnswered words.now (S.left source.old) (S.left source.new) 0)
        × AreCutShort a.out a.report (K.held out.old) (K.held out.new) (R.held report.old) (R.held report.new)
        × IsLeft a.out out.old out.new × IsLeft a.report report.old report.new }

    // What a command answers to the bytes that are there is the status, or memory ran out: where no count of faults
    // rose, and on another status than 0 where no read failed.
    ensures complete { IsComplete words.now (S.left source.old) (Rose (S.faults source.old) (S.faults source.new)
        ⊎ (Rose (K.faults out.old) (K.faults out.new) ⊎ Rose (R.faults report.old) (R.faults report.new))) result }
    ensures refused { IsRefused words.now (S.left source.old) (Rose (S.faults source.old) (S.faults source.new)) result }

    // Faults.
    ensures read { result ≡ 6 → Rose (S.faults source.old) (S.faults source.new) }
    ensures read_stopped { result ≡ 6 → EndsAtFault (S.left source.new) (S.fault_at source.new) (S.faults source.old) (S.faults source.new) }
    ensures no_read_failed { result ≢ 6 → S.faults source.new ≡ S.faults source.old }
    ensures write { result ≡ 7 → Rose (K.faults out.old) (K.faults out.new) ⊎ Rose (R.faults report.old) (R.faults report.new) }
    ensures stopped { result ≡ 7 → (EndsAtFault (K.held out.new) (K.fault_at out.new) (K.faults out.old) (K.faults out.new) × (report.new ≡ report.old))
        ⊎ ((K.faults out.new ≡ K.faults out.old) × EndsAtFault (R.held report.new) (R.fault_at report.new) (R.faults report.old) (R.faults report.new)) }
    ensures no_write_failed { result ≢ 7 → result ≢ 10 → K.faults out.new ≡ K.faults out.old }
    ensures no_report_failed { result ≡ 0 → R.faults report.new ≡ R.faults report.old }

    // What is read and written beside that.
    ensures taken { (command : ACommand) → IsCommand words.now command
        → TakesAtMost (S.left source.old) (S.left source.new) (S.reads source.old) (S.reads source.new) (S.empty source.old) (S.empty source.new) (limit_of command) }
    ensures input { (command : ACommand) → IsCommand words.now command → IsAllRead command (S.left source.old) (S.left source.new) result }
    ensures unread { result ≡ 2 → source.new ≡ source.old }
    ensures unasked { (command : ACommand) → IsCommand words.now command → limit_of command ≡ 0 → source.new ≡ source.old }
    ensures out { result ≢ 0 → result ≢ 7 → result ≢ 10 → out.new ≡ out.old }
    ensures silent { result ≡ 8 → report.new ≡ report.old }
    ensures told { IsTrue (tells result) → Tells (R.held report.old) (R.held report.new) (told_line result) (R.fault_at report.new) (R.faults report.old) (R.faults report.new) }
    ensures source_later { S.faults source.old ≤ S.faults source.new }
    ensures out_later { K.faults out.old ≤ K.faults out.new }
    ensures report_later { R.faults report.old ≤ R.faults report.new }
{
    // The laws that a command has one answer at most, and tells refusals to `report`; and that its numbers lie in their
    // ranges.
    answer_laws();
    words_law();
    let command = match words.command(alloc) {
        Ok(command) => command,
        Err(NoCommand::OutOfMemory) => return 8,
        Err(NoCommand::Usage) => {
            let _ = write_whole(report, USAGE);
            return 2;
        }
    };
    let bytes = match read_up_to(alloc, source, command.limit()) {
        Ok(bytes) => bytes,
        Err(ReadStop::OutOfMemory) => return 8,
        Err(ReadStop::Fault) => {
            let _ = write_whole(report, b"read fault\n");
            return 6;
        }
    };
    match answer_to(alloc, command, &bytes) {
        Ok(answer) => write_answer(out, report, &answer),
        Err(_) => 8,
    }
}

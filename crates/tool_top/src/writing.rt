// Writing the texts of an answer.
ghost use Rattle.std.specs.Prelude.{◌≡◌, ◌≢◌, ◌≤◌, ◌⊎◌, length, OnOk, OnErr, IsTrue};
ghost use Rattle.std.specs.Io.KnownBytes.{Appends};
ghost use Rattle.streams.specs.Causes.{Rose, EndsAtFault};
ghost use Rattle.streams.specs.Sink.{HasRoom};
ghost use Rattle.tool_texts.specs.Answers.{is_answer, number_of};
ghost use Rattle.tool_top.specs.Promise.{AreCutShort, IsLeft, IsWritten, is_status};

use streams::{Failed, Sink, write_whole};
use tool_texts::Answer;

/// Writes one text whole to `out`, and then the other one to `report`. It stops at the first write that fails.
fn write_texts<K: Sink, R: Sink>(out: &mut K, report: &mut R, answer: &Answer) -> Result<(), Failed>
    requires out_room { HasRoom (K.room out.old) (length answer.now.out.items) }
    requires report_room { HasRoom (R.room report.old) (length answer.now.report.items) }

    ensures ok { OnOk result (Appends (K.held out.old) (K.held out.new) answer.now.out.items
        × Appends (R.held report.old) (R.held report.new) answer.now.report.items) }
    ensures cut { OnErr result (AreCutShort answer.now.out.items answer.now.report.items
        (K.held out.old) (K.held out.new) (R.held report.old) (R.held report.new)) }

    ensures stopped { OnErr result ((EndsAtFault (K.held out.new) (K.fault_at out.new) (K.faults out.old) (K.faults out.new)
        × (report.new ≡ report.old))
        ⊎ ((K.faults out.new ≡ K.faults out.old)
        × EndsAtFault (R.held report.new) (R.fault_at report.new) (R.faults report.old) (R.faults report.new))) }
    ensures rose { OnErr result (Rose (K.faults out.old) (K.faults out.new) ⊎ Rose (R.faults report.old) (R.faults report.new)) }
    ensures no_fault_of_out { OnOk result (K.faults out.new ≡ K.faults out.old) }
    ensures no_fault_of_report { OnOk result (R.faults report.new ≡ R.faults report.old) }
    ensures out_later { K.faults out.old ≤ K.faults out.new }
    ensures report_later { R.faults report.old ≤ R.faults report.new }
    ensures out_left { IsLeft answer.now.out.items out.old out.new }
    ensures report_left { IsLeft answer.now.report.items report.old report.new }
{
    write_whole(out, &answer.out)?;
    write_whole(report, &answer.report)
}

/// Writes the texts of an answer, and gives the status that the program ends with: the answer's, or 7 where that is 0
/// and a write failed.
pub fn write_answer<K: Sink, R: Sink>(out: &mut K, report: &mut R, answer: &Answer) -> u8
    requires out_room { HasRoom (K.room out.old) (length answer.now.out.items) }
    requires report_room { HasRoom (R.room report.old) (length answer.now.report.items) }

    ensures status { (result ≡ number_of answer.now.status) ⊎ ((result ≡ 7) × (number_of answer.now.status ≡ 0)) }
    ensures done { result ≡ 7 → number_of answer.now.status ≡ 0 }
    ensures known { IsTrue (is_status result) }
    ensures no_usage { result ≢ 2 }
    ensures no_read_fault { result ≢ 6 }
    ensures no_want { result ≢ 8 }

    ensures out_written { IsTrue (is_answer result) → IsWritten result (K.held out.old) (K.held out.new) answer.now.out.items
        (K.fault_at out.new) (K.faults out.old) (K.faults out.new) }
    ensures report_written { IsTrue (is_answer result) → IsWritten result (R.held report.old) (R.held report.new) answer.now.report.items
        (R.fault_at report.new) (R.faults report.old) (R.faults report.new) }
    ensures cut { result ≡ 7 → AreCutShort answer.now.out.items answer.now.report.items
        (K.held out.old) (K.held out.new) (R.held report.old) (R.held report.new) }

    ensures stopped { result ≡ 7 → (EndsAtFault (K.held out.new) (K.fault_at out.new) (K.faults out.old) (K.faults out.new)
        × (report.new ≡ report.old))
        ⊎ ((K.faults out.new ≡ K.faults out.old)
        × EndsAtFault (R.held report.new) (R.fault_at report.new) (R.faults report.old) (R.faults report.new)) }
    ensures rose { result ≡ 7 → Rose (K.faults out.old) (K.faults out.new) ⊎ Rose (R.faults report.old) (R.faults report.new) }
    ensures no_fault_of_out { result ≡ 0 → K.faults out.new ≡ K.faults out.old }
    ensures no_fault_of_report { result ≡ 0 → R.faults report.new ≡ R.faults report.old }
    ensures out_later { K.faults out.old ≤ K.faults out.new }
    ensures report_later { R.faults report.old ≤ R.faults report.new }
    ensures out_left { IsLeft answer.now.out.items out.old out.new }
    ensures report_left { IsLeft answer.now.report.items report.old report.new }
{
    let status = answer.status.number();
    if status == 0 {
        return match write_texts(out, report, answer) {
            Ok(()) => 0,
            Err(_) => 7,
        };
    }
    // A refusal stands, whatever the sinks do.
    let _ = write_whole(out, &answer.out);
    let _ = write_whole(report, &answer.report);
    status
}

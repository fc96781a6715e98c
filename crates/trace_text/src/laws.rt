// How long texts are.
ghost use Rattle.std.specs.Prelude.{ℕ, ◌+◌, ◌<◌, ◌≤◌, List, length, Option};
ghost use Rattle.std.specs.List.{AllByRecursion};
ghost use Rattle.rv_hart.specs.declared.record.Record.{Record};
ghost use Rattle.replay_check.specs.declared.verdict.Verdict.{Verdict};
ghost use Rattle.tpl_lang.specs.declared.fault.Fault.{Fault};
ghost use Rattle.tpl_ast.specs.Limits.{most_records, text_room};
ghost use Rattle.tpl_admit.specs.declared.certificate.Cert.{Cert};
ghost use Rattle.tpl_admit.specs.WellFormed.{IsRecord, IsWellFormed};
ghost use Rattle.trace_text.specs.Events.{events_text};
ghost use Rattle.trace_text.specs.Faults.{fault_text};
ghost use Rattle.trace_text.specs.Report.{report_text};
ghost use Rattle.trace_text.specs.Verdicts.{gave_up_text, malformed_text, verdict_text};

use tpl_lang::template_law;

/// Does nothing. Its contract says that the report of a well-formed certificate fits into the room for a text, and each
/// line of what is said of a text, a file or a search at most 256.
pub fn length_laws()
    ensures report { (c : Cert) → IsWellFormed c → length (report_text c) < text_room }

    // The events of a run, with a verdict behind them.
    ensures events { (events : List (ℕ × Record)) (stopped : Option ℕ) → AllByRecursion (λ e. IsRecord e.1) events → length events ≤ most_records → length (events_text events stopped) + 256 < text_room }
    ensures fault { (f : Fault) → length (fault_text f) ≤ 256 }
    ensures malformed { (part : ℕ) → length (malformed_text part) ≤ 256 }
    ensures verdict { (v : Verdict) → length (verdict_text v) ≤ 256 }
    ensures gave_up { (none_fits spent last_line : ℕ) → length (gave_up_text none_fits spent last_line) ≤ 256 }
{
    template_law();
}

// A verdict that no file has: its step is beyond all that a file can hold.
use replay_check::Verdict;
use std::test::Fail;
use trace_text::verdict;

#[test]
fn a_verdict_with_the_greatest_step_is_told_in_one_line(rt: HostRuntime) -> Result<(), Fail> {
    let no = Verdict::No {
        kind: 5,
        hart: 1,
        step: 4_294_967_295,
    };
    let line = verdict(rt.alloc(), &no)?;
    assert_eq!(rt; line.as_str(), "no 5 hart 1 step 4294967295\n");
    Ok(())
}

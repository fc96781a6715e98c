// The words of the command line, as the system hands them over.
use std::io::{Error, ErrorKind};
use std::test::Fail;
use tool_top::{Command, Effort, NoCommand, words_of};

#[test]
fn the_words_stand_behind_the_program_s_name(rt: HostRuntime) -> Result<(), Fail> {
    let alloc = rt.alloc();
    let mut arguments = Vec::new(alloc);
    for argument in ["testgen", "gen", "--seed", "7"] {
        arguments.push(String::from_str(alloc, argument)?)?;
    }
    let words = words_of(alloc, Ok(arguments.into_iter()))?;
    assert_eq!(rt;
        words.command(alloc),
        Ok(Command::Gen(Effort {
            seed: 7,
            nodes: 67_108_864,
            turns: 65_536
        }))
    );
    Ok(())
}

#[test]
fn arguments_that_are_not_utf8_are_no_words(rt: HostRuntime) -> Result<(), Fail> {
    let alloc = rt.alloc();
    let words = words_of(alloc, Err(Error::from(ErrorKind::InvalidData)))?;
    assert_eq!(rt; words.command(alloc), Err(NoCommand::Usage));
    Ok(())
}

#[test]
fn arguments_without_memory_are_no_answer(rt: HostRuntime) -> Result<(), Fail> {
    let refused = words_of(rt.alloc(), Err(Error::from(ErrorKind::OutOfMemory)));
    assert!(rt; refused.is_err());
    Ok(())
}

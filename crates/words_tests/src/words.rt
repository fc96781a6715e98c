// What words ask for, a row a line: the command with its numbers or `usage`, and behind the colon the words.
use std::alloc::Global;
use std::test::Fail;
use tool_words::{Command, Effort, NoCommand, words_law};

const ROWS: &str = "\
gen 1 67108864 65536 : gen --seed 1
gen 0 67108864 65536 : gen --seed 0
gen 18446744073709551615 67108864 65536 : gen --seed 18446744073709551615
gen 1 67108864 65536 : gen --seed=1
gen 5 67108864 65536 : gen --seed +5
gen 7 67108864 65536 : gen --seed 007
gen 5 67108864 65536 : gen --seed 00000000000000000000000000000005
gen 1 67108864 65536 : gen --seed 1 --
gen 1 1 65536 : gen --seed 1 --nodes 1
gen 1 1000000000 65536 : gen --seed 1 --nodes 1000000000
gen 1 67108864 1 : gen --seed 1 --turns 1
gen 1 67108864 1000000 : gen --seed 1 --turns 1000000
gen 1 2 3 : gen --seed 1 --nodes 2 --turns 3
gen 1 2 3 : gen --seed 1 --turns 3 --nodes 2
gen 1 2 3 : gen --nodes 2 --seed 1 --turns 3
gen 1 2 3 : gen --turns=3 --nodes=+2 --seed=01
replay : replay
replay : replay --
exec 0 : exec --order 0
exec 18446744073709551615 : exec --order=18446744073709551615
show : show
demo 0 : demo 0
demo 2000 : demo 2000
demo 40 : demo 0040
demo 5 : demo +5
demo 5 : demo -- 5
demo 5 : demo 5 --
usage :
usage : --
usage : 1
usage : gen
usage : gen 1
usage : gen --seed
usage : gen --seed=
usage : gen --seed --
usage : gen --seed --nodes 5
usage : gen --nodes 5
usage : gen --seed 1 2
usage : gen --seed 1 -- 2
usage : gen -- --seed 1
usage : gen --seed 1 2 3
usage : gen --seed 1 --seed 1
usage : gen --seed 1 --seed=2
usage : gen --seed 1 --nodes 5 --nodes 5
usage : gen --seed 1 --turns 5 --turns 5
usage : gen --seed 18446744073709551616
usage : gen --seed -1
usage : gen --seed=-1
usage : gen --seed ++1
usage : gen --seed +
usage : gen --seed 0x10
usage : gen --seed 1_000
usage : gen --seed 1.0
usage : gen --seed one
usage : gen --seed 1 --nodes 0
usage : gen --seed 1 --nodes 1000000001
usage : gen --seed 1 --nodes -1
usage : gen --seed 1 --nodes
usage : gen --seed 1 --turns 0
usage : gen --seed 1 --turns 1000001
usage : gen --seed 1 --order 2
usage : gen --seed 1 --steps 2
usage : gen --see 1
usage : gen --Seed 1
usage : gen -seed 1
usage : gen -s 1
usage : gen --seed 1 --help
usage : gen --help
usage : gen -h
usage : gen --version
usage : gen -V
usage : gen help
usage : gen --seed 1 replay
usage : ge --seed 1
usage : GEN --seed 1
usage : --seed 1 gen
usage : -- gen --seed 1
usage : testgen gen --seed 1
usage : list --seed 1
usage : replay 1
usage : replay replay
usage : replay -- 1
usage : replay --seed 1
usage : replay --help
usage : repla
usage : exec
usage : exec 1
usage : exec --order
usage : exec --order 1 2
usage : exec --order 1 --order 1
usage : exec --order -1
usage : exec --order 18446744073709551616
usage : exec --seed 1
usage : exec --order 1 --seed 1
usage : show 1
usage : show --order 1
usage : demo
usage : demo --
usage : demo 2001
usage : demo 18446744073709551616
usage : demo -1
usage : demo -- -1
usage : demo 5 6
usage : demo 5 -- 6
usage : demo --steps 5
usage : demo --steps=5
usage : demo --seed 5
usage : demo five
usage : help
usage : help gen
usage : help help
usage : help nothing
usage : --help
usage : -h
usage : --version
usage : -V
usage : --help gen";

/// The command with its numbers, as a row has it.
fn told(alloc: Global, command: Command) -> Result<String, Fail> {
    let text = match command {
        Command::Gen(effort) => {
            format!(in alloc; "gen {} {} {}", effort.seed, effort.nodes, effort.turns)?
        }
        Command::Replay => String::from_str(alloc, "replay")?,
        Command::Exec(order) => format!(in alloc; "exec {order}")?,
        Command::Show => String::from_str(alloc, "show")?,
        Command::Demo(steps) => format!(in alloc; "demo {steps}")?,
    };
    Ok(text)
}

/// What these words ask for, as a row has it.
fn answered(alloc: Global, words: &[String]) -> Result<String, Fail> {
    match Command::asked(alloc, words) {
        Ok(command) => told(alloc, command),
        Err(NoCommand::Usage) => Ok(String::from_str(alloc, "usage")?),
        Err(NoCommand::OutOfMemory) => Err(Fail::from("memory")),
    }
}

fn words_of(alloc: Global, text: &str) -> Result<Vec<String>, Fail> {
    let mut words = Vec::new(alloc);
    for word in text.split_whitespace() {
        words.push(String::from_str(alloc, word)?)?;
    }
    Ok(words)
}

#[test]
fn words_ask_for_what_their_row_says(rt: HostRuntime) -> Result<(), Fail> {
    let alloc = rt.alloc();
    for line in ROWS.lines() {
        let (want, text) = line.split_once(':').ok_or("a row")?;
        let words = words_of(alloc, text)?;
        let got = answered(alloc, words.as_slice())?;
        assert_eq!(rt; got.as_str(), want.trim(), "{line}");
    }
    Ok(())
}

#[test]
fn an_empty_word_is_no_name_and_no_number(rt: HostRuntime) -> Result<(), Fail> {
    let alloc = rt.alloc();
    for text in ["", "gen --seed", "exec --order", "demo", "replay"] {
        let mut words = words_of(alloc, text)?;
        words.push(String::new(alloc))?;
        let got = answered(alloc, words.as_slice())?;
        assert_eq!(rt; got.as_str(), "usage", "{text}");
    }
    Ok(())
}

#[test]
fn each_command_takes_a_byte_more_than_its_input_may_have(rt: HostRuntime) {
    words_law();
    let effort = Effort {
        seed: 1,
        nodes: 2,
        turns: 3,
    };
    assert_eq!(rt; Command::Gen(effort).limit(), 65_537);
    assert_eq!(rt; Command::Replay.limit(), 8_388_609);
    assert_eq!(rt; Command::Exec(1).limit(), 8_388_609);
    assert_eq!(rt; Command::Show.limit(), 8_388_609);
    assert_eq!(rt; Command::Demo(2).limit(), 0);
}

//! That `command_of` gives what it should with ample memory, from words to what a command tells.

use command_line::{AskWords, Command, ProveWords, Refusal, SolveWords, command_of};
use graph_theory::embedding::Maps;
use std::alloc::{AllocError, Global};
use std::test::Fail;
use test_support::{Example, all_hold};

/// The words of a line, one blank between two; two blanks in a row stand round an empty word.
fn words_of(alloc: Global, line: &str) -> Result<Vec<String>, AllocError> {
    let mut words = Vec::new(alloc);
    for word in line.split(' ') {
        words.push(String::from_str(alloc, word)?)?;
    }
    Ok(words)
}

/// What a proof's words tell, as text.
fn told_proof(alloc: Global, prove: &Option<ProveWords>) -> Result<String, AllocError> {
    match prove {
        None => String::from_str(alloc, "unproved"),
        Some(words) => format!(in alloc;
            "{} {} {:?}",
            words.encoding.as_str(),
            words.log.as_str(),
            words.profile
        ),
    }
}

/// What tells of maps that are not injective.
fn told_maps(maps: Maps) -> &'static str {
    match maps {
        Maps::Injective => "",
        Maps::Local => " local",
        Maps::Any => " any",
    }
}

/// What is asked of a map, as text.
fn told_ask(alloc: Global, ask: &AskWords) -> Result<String, AllocError> {
    let mut text = format!(in alloc;
        "{} {:?}{}",
        ask.induced(),
        ask.format(),
        told_maps(ask.maps())
    )?;
    for (a, b) in ask.less() {
        text.push_str(format!(in alloc; " {a},{b}")?.as_str())?;
    }
    Ok(text)
}

/// What a solve tells, as text.
fn told_solve(alloc: Global, words: &SolveWords) -> Result<String, AllocError> {
    let proof = told_proof(alloc, &words.prove)?;
    let ask = told_ask(alloc, &words.ask)?;
    format!(in alloc;
        "solve {} {} {} {} {} {} {} {}",
        words.pattern.as_str(),
        words.target.as_str(),
        ask.as_str(),
        words.threads,
        words.seed,
        words.budget,
        words.book,
        proof.as_str()
    )
}

/// What a command tells, as text.
fn told(alloc: Global, command: &Command) -> Result<String, AllocError> {
    match command {
        Command::Solve(words) => told_solve(alloc, words),
        Command::Verify(words) => format!(in alloc;
            "verify {} {} {} {}",
            words.pattern.as_str(),
            words.target.as_str(),
            words.mapping.as_str(),
            told_ask(alloc, &words.ask)?.as_str()
        ),
        Command::Check(words) => format!(in alloc;
            "check {} {}",
            words.encoding.as_str(),
            words.log.as_str()
        ),
        Command::Trim(words) => format!(in alloc;
            "trim {} {} {}",
            words.encoding.as_str(),
            words.log.as_str(),
            words.out.as_str()
        ),
        Command::Demo(words) => format!(in alloc;
            "demo {} {} {}",
            words.seed, words.threads, words.budget
        ),
        Command::Encode(words) => format!(in alloc;
            "encode {} {} {}",
            words.pattern.as_str(),
            words.target.as_str(),
            told_ask(alloc, &words.ask)?.as_str()
        ),
    }
}

/// Whether what the words come to, told as text, is this.
fn come_to(alloc: Global, words: &[String], expected: &str) -> Result<bool, AllocError> {
    match command_of(alloc, words) {
        Ok(command) => Ok(told(alloc, &command)?.as_str() == expected),
        Err(_) => Ok(false),
    }
}

/// A line, and what it comes to.
struct Says {
    line: &'static str,
    told: &'static str,
}

impl<R> Example<R> for Says {
    fn holds(&self, _rt: &R, alloc: Global) -> Result<bool, AllocError> {
        let words = words_of(alloc, self.line)?;
        come_to(alloc, &words, self.told)
    }
}

static SAYS: [Says; 30] = [
    Says {
        line: "subgraph solve p t",
        told: "solve p t false Lad 1 0 9223372036854775807 65536 unproved",
    },
    Says {
        line: "subgraph solve p p --induced",
        told: "solve p p true Lad 1 0 9223372036854775807 65536 unproved",
    },
    Says {
        line: "subgraph solve --budget 4 p --format vertexlabelledlad t",
        told: "solve p t false VertexLabelledLad 1 0 4 65536 unproved",
    },
    Says {
        line: "subgraph solve --format directedlad p t",
        told: "solve p t false DirectedLad 1 0 9223372036854775807 65536 unproved",
    },
    Says {
        line: "subgraph solve p t --induced --format labelledlad",
        told: "solve p t true LabelledLad 1 0 9223372036854775807 65536 unproved",
    },
    Says {
        line: "subgraph solve p t --budget=09223372036854775807",
        told: "solve p t false Lad 1 0 9223372036854775807 65536 unproved",
    },
    Says {
        line: "subgraph solve -- --induced t",
        told: "solve --induced t false Lad 1 0 9223372036854775807 65536 unproved",
    },
    Says {
        line: "subgraph solve  t",
        told: "solve  t false Lad 1 0 9223372036854775807 65536 unproved",
    },
    Says {
        line: "subgraph solve p t --seed 18446744073709551615 --budget 4",
        told: "solve p t false Lad 1 18446744073709551615 4 65536 unproved",
    },
    Says {
        line: "subgraph solve p t --threads 64 --book 4194304",
        told: "solve p t false Lad 64 0 9223372036854775807 4194304 unproved",
    },
    Says {
        line: "subgraph solve --book 0 --threads 008 p t",
        told: "solve p t false Lad 8 0 9223372036854775807 0 unproved",
    },
    Says {
        line: "subgraph solve p t --prove e --log l",
        told: "solve p t false Lad 1 0 9223372036854775807 65536 e l Hinted",
    },
    Says {
        line: "subgraph solve p t --prove e --profile=02 --log l",
        told: "solve p t false Lad 1 0 9223372036854775807 65536 e l Plain",
    },
    Says {
        line: "subgraph solve --log=p. --prove . p t",
        told: "solve p t false Lad 1 0 9223372036854775807 65536 . p. Hinted",
    },
    Says {
        line: "subgraph solve p t --format directedlad --prove e --log l",
        told: "solve p t false DirectedLad 1 0 9223372036854775807 65536 e l Hinted",
    },
    Says {
        line: "subgraph solve p t --prove e --log l --format labelledlad --profile 2",
        told: "solve p t false LabelledLad 1 0 9223372036854775807 65536 e l Plain",
    },
    Says {
        line: "subgraph verify p t m",
        told: "verify p t m false Lad",
    },
    Says {
        line: "subgraph verify --format lad p --induced t m",
        told: "verify p t m true Lad",
    },
    Says {
        line: "subgraph encode p t",
        told: "encode p t false Lad",
    },
    Says {
        line: "subgraph encode --format vertexlabelledlad p t --induced",
        told: "encode p t true VertexLabelledLad",
    },
    Says {
        line: "subgraph encode p t --format directedlad",
        told: "encode p t false DirectedLad",
    },
    Says {
        line: "subgraph encode p --format labelledlad t --induced",
        told: "encode p t true LabelledLad",
    },
    Says {
        line: "subgraph solve p t --map local --less 0,1:2,0",
        told: "solve p t false Lad local 0,1 2,0 1 0 9223372036854775807 65536 unproved",
    },
    Says {
        line: "subgraph verify p t m --map any --format directedlad",
        told: "verify p t m false DirectedLad any",
    },
    Says {
        line: "subgraph encode p t --induced --map injective --less 1,0",
        told: "encode p t true Lad 1,0",
    },
    Says {
        line: "subgraph encode --less=0000000007,4294967295 p t",
        told: "encode p t false Lad 7,4294967295",
    },
    Says {
        line: "subgraph check e l",
        told: "check e l",
    },
    Says {
        line: "subgraph trim e e o",
        told: "trim e e o",
    },
    Says {
        line: "subgraph demo 7",
        told: "demo 7 1 9223372036854775807",
    },
    Says {
        line: "subgraph demo 7 --budget 4 --threads 2",
        told: "demo 7 2 4",
    },
];

/// A line that is no command.
struct Refused(&'static str);

impl<R> Example<R> for Refused {
    fn holds(&self, _rt: &R, alloc: Global) -> Result<bool, AllocError> {
        let words = words_of(alloc, self.0)?;
        match command_of(alloc, &words) {
            Ok(_) => Ok(false),
            Err(refusal) => Ok(refusal == Refusal::NotACommand),
        }
    }
}

static REFUSED: [Refused; 54] = [
    Refused(""),
    Refused("subgraph solve p"),
    Refused("subgraph solve p t m"),
    Refused("subgraph verify p t"),
    Refused("subgraph check e"),
    Refused("subgraph trim e l"),
    Refused("subgraph trim e l e"),
    Refused("subgraph trim e l l"),
    Refused("subgraph demo"),
    Refused("subgraph demo +7"),
    Refused("subgraph solve p t --threads 0"),
    Refused("subgraph solve p t --threads 65"),
    Refused("subgraph solve p t --threads +4"),
    Refused("subgraph solve p t --threads 4294967297"),
    Refused("subgraph solve p t --book 4194305"),
    Refused("subgraph demo 7 --threads 65"),
    Refused("subgraph demo 7 --book 4"),
    Refused("subgraph verify p t m --threads 2"),
    Refused("subgraph solve p t --budget 0"),
    Refused("subgraph solve p t --budget 9223372036854775808"),
    Refused("subgraph solve p t --budget 99999999999999999999"),
    Refused("subgraph solve p t --seed 18446744073709551616"),
    Refused("subgraph encode p t --budget 4"),
    Refused("subgraph check e l --induced"),
    Refused("subgraph verify p t m --seed 4"),
    Refused("subgraph solve p t --format foo"),
    Refused("subgraph encode p t --format directed"),
    Refused("subgraph solve p t --seed 1 --seed 1"),
    Refused("subgraph solve p t --induced --induced"),
    Refused("subgraph solve p t --induced=true"),
    Refused("subgraph solve p t --prove e"),
    Refused("subgraph solve p t --log l"),
    Refused("subgraph solve p t --prove a --log a"),
    Refused("subgraph solve p t --prove p --log l"),
    Refused("subgraph solve p t --prove e --log t"),
    Refused("subgraph solve p t --profile 2"),
    Refused("subgraph solve p t --prove e --log l --profile 3"),
    Refused("subgraph solve p t --prove e --log l --profile 0"),
    Refused("subgraph solve p t --map homomorphism"),
    Refused("subgraph solve p t --map local --induced"),
    Refused("subgraph batch l --map any"),
    Refused("subgraph solve p t --less 0"),
    Refused("subgraph solve p t --less 00,0"),
    Refused("subgraph solve p t --less 0,1:"),
    Refused("subgraph solve p t --less 0,4294967296"),
    Refused("subgraph solve p t --less 0,1 --less 1,2"),
    Refused("subgraph solve p t --bud 4"),
    Refused("subgraph sol p t"),
    Refused("subgraph --help"),
    Refused("subgraph help"),
    Refused("subgraph -V"),
    Refused("subgraph --version"),
    Refused("subgraph solve --help"),
    Refused("subgraph solve p t -h"),
];

#[test]
fn lines_come_to_their_commands(rt: HostRuntime) -> Result<(), Fail> {
    all_hold(&rt, rt.alloc(), &SAYS)
}

#[test]
fn other_lines_are_no_command(rt: HostRuntime) -> Result<(), Fail> {
    all_hold(&rt, rt.alloc(), &REFUSED)
}

/// A word of so many bytes.
fn long_word(alloc: Global, bytes: usize) -> Result<String, AllocError> {
    let mut word = String::new(alloc);
    for _ in 0..bytes {
        word.push_str("p")?;
    }
    Ok(word)
}

/// Whether the words of the line and a name of so many bytes behind them are a command.
fn is_command(alloc: Global, line: &str, bytes: usize) -> Result<bool, AllocError> {
    let mut words = words_of(alloc, line)?;
    words.push(long_word(alloc, bytes)?)?;
    Ok(command_of(alloc, &words).is_ok())
}

/// Whether a name of 4,095 bytes may stand behind the line, and no longer one.
fn has_longest(alloc: Global, line: &str) -> Result<bool, AllocError> {
    Ok(is_command(alloc, line, 4095)? && !is_command(alloc, line, 4096)?)
}

#[test]
fn a_name_has_at_most_4095_bytes(rt: HostRuntime) -> Result<(), Fail> {
    assert!(rt; has_longest(rt.alloc(), "subgraph solve p")?);
    assert!(rt; has_longest(rt.alloc(), "subgraph solve p t --prove e --log")?);
    Ok(())
}

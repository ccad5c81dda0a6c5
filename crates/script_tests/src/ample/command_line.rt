//! The arguments of the command line.
use conf_change::Floor;
use conf_plan::Strategy;
use conf_session::SessionIds;
use conf_tool::command_line::command_line;
use conf_tool::{ArgumentFault, Invocation, Mode, Output, PairArguments, PlanOutput};
use test_support::equal::has_ids;
use test_support::runtime::Runtime;

// What arguments ask for.
struct Asked {
    mode: Mode,
    file: Option<&'static str>,
    pair: Option<(&'static str, &'static str)>,
    history: usize,
    steps: usize,
    floor: Floor,
    strategy: Option<Strategy>,
    output: PlanOutput,
    down: Option<&'static [u64]>,
}

// The modes without options.
const LINES: Asked = Asked {
    mode: Mode::Lines,
    file: None,
    pair: None,
    history: 100,
    steps: 1,
    floor: Floor::One,
    strategy: None,
    output: PlanOutput::Text(Output::Steps),
    down: None,
};

const CHECK: Asked = Asked {
    mode: Mode::Check,
    ..LINES
};

const REWRITE: Asked = Asked {
    mode: Mode::Rewrite,
    ..LINES
};

const UNDO: Asked = Asked {
    mode: Mode::Undo,
    ..LINES
};

const PLAN: Asked = Asked {
    mode: Mode::Plan,
    ..LINES
};

// Arguments that are accepted, and what they ask for.
static ACCEPTED: [(&[&str], Asked); 31] = [
    (&["confscript", "lines"], LINES),
    (
        &["confscript", "lines", "changes.txt"],
        Asked {
            file: Some("changes.txt"),
            ..LINES
        },
    ),
    (
        &["confscript", "lines", "-"],
        Asked {
            file: Some("-"),
            ..LINES
        },
    ),
    (
        &["confscript", "lines", "--", "--x"],
        Asked {
            file: Some("--x"),
            ..LINES
        },
    ),
    (&["confscript", "check"], CHECK),
    (
        &["confscript", "rewrite", "script.txt"],
        Asked {
            file: Some("script.txt"),
            ..REWRITE
        },
    ),
    (
        &["confscript", "check", "--history", "0"],
        Asked {
            history: 0,
            ..CHECK
        },
    ),
    (
        &["confscript", "check", "--history=1000", "script.txt"],
        Asked {
            file: Some("script.txt"),
            history: 1000,
            ..CHECK
        },
    ),
    (
        &["confscript", "rewrite", "--history", "007"],
        Asked {
            history: 7,
            ..REWRITE
        },
    ),
    (
        &["confscript", "rewrite", "script.txt", "--history", "+1"],
        Asked {
            file: Some("script.txt"),
            history: 1,
            ..REWRITE
        },
    ),
    (&["confscript", "plan"], PLAN),
    (
        &["confscript", "plan", "two_lines.txt"],
        Asked {
            file: Some("two_lines.txt"),
            ..PLAN
        },
    ),
    (&["confscript", "undo"], UNDO),
    (
        &["confscript", "undo", "--steps", "2", "f"],
        Asked {
            file: Some("f"),
            steps: 2,
            ..UNDO
        },
    ),
    (
        &["confscript", "undo", "--steps=1000", "--history", "0"],
        Asked {
            history: 0,
            steps: 1000,
            ..UNDO
        },
    ),
    (
        &["confscript", "plan", "--strategy", "shortest"],
        Asked {
            strategy: Some(Strategy::Shortest),
            ..PLAN
        },
    ),
    (
        &["confscript", "plan", "--strategy", "learners-first", "f"],
        Asked {
            file: Some("f"),
            strategy: Some(Strategy::LearnersFirst),
            ..PLAN
        },
    ),
    (
        &["confscript", "plan", "--strategy=one-at-a-time"],
        Asked {
            strategy: Some(Strategy::OneAtATime),
            ..PLAN
        },
    ),
    (&["confscript", "plan", "--output", "steps"], PLAN),
    (
        &["confscript", "plan", "--output", "script"],
        Asked {
            output: PlanOutput::Script,
            ..PLAN
        },
    ),
    (
        &["confscript", "plan", "--output=table", "--down", "4"],
        Asked {
            output: PlanOutput::Text(Output::Table),
            down: Some(&[4]),
            ..PLAN
        },
    ),
    (
        &["confscript", "plan", "--output", "json"],
        Asked {
            output: PlanOutput::Text(Output::Json),
            ..PLAN
        },
    ),
    (
        &["confscript", "plan", "--down=6,4,06", "f"],
        Asked {
            file: Some("f"),
            down: Some(&[4, 6]),
            ..PLAN
        },
    ),
    (
        &["confscript", "plan", "--down", "18446744073709551615,1"],
        Asked {
            down: Some(&[1, u64::MAX]),
            ..PLAN
        },
    ),
    (
        &["confscript", "plan", "--from", "voters=(1)", "--to", "v2"],
        Asked {
            pair: Some(("voters=(1)", "v2")),
            ..PLAN
        },
    ),
    (
        &["confscript", "plan", "--to=--from", "--from=--to"],
        Asked {
            pair: Some(("--to", "--from")),
            ..PLAN
        },
    ),
    (
        &["confscript", "plan", "--to", "", "--down=1", "--from", "a"],
        Asked {
            pair: Some(("a", "")),
            down: Some(&[1]),
            ..PLAN
        },
    ),
    (
        &["confscript", "check", "--next-floor", "0"],
        Asked {
            floor: Floor::Zero,
            ..CHECK
        },
    ),
    (&["confscript", "check", "--next-floor", "1"], CHECK),
    (
        &["confscript", "rewrite", "--next-floor=0", "f"],
        Asked {
            file: Some("f"),
            floor: Floor::Zero,
            ..REWRITE
        },
    ),
    (
        &["confscript", "undo", "--steps", "2", "--next-floor", "0"],
        Asked {
            steps: 2,
            floor: Floor::Zero,
            ..UNDO
        },
    ),
];

// Arguments that are refused with a usage error or the help, and the exit status.
static REFUSED: [(&[&str], i32); 32] = [
    (&["confscript"], 2),
    (&["confscript", "check", "a", "b"], 2),
    (&["confscript", "rewrite", "--history", "1001"], 2),
    (&["confscript", "rewrite", "--history", "-1"], 2),
    (&["confscript", "check", "--history", "x"], 2),
    (&["confscript", "check", "--history"], 2),
    (&["confscript", "check", "--next-floor", "2"], 2),
    (&["confscript", "check", "--next-floor", "00"], 2),
    (&["confscript", "rewrite", "--next-floor", "+1"], 2),
    (&["confscript", "undo", "--next-floor", ""], 2),
    (&["confscript", "lines", "--next-floor", "0"], 2),
    (&["confscript", "check", "--steps", "1"], 2),
    (&["confscript", "undo", "--steps", "0"], 2),
    (&["confscript", "undo", "--steps", "1001"], 2),
    (&["confscript", "undo", "--history", "1001"], 2),
    (&["confscript", "lines", "--steps", "1"], 2),
    (&["confscript", "changes.txt"], 2),
    (&["confscript", "lines", "a", "b"], 2),
    (&["confscript", "lines", "--history", "5"], 2),
    (&["confscript", "plan", "a", "b"], 2),
    (&["confscript", "plan", "--steps", "1"], 2),
    (&["confscript", "plan", "--strategy", "longest"], 2),
    (&["confscript", "plan", "--strategy", "Shortest"], 2),
    (&["confscript", "plan", "--output", ""], 2),
    (&["confscript", "check", "--output", "steps"], 2),
    (&["confscript", "plan", "--down"], 2),
    (&["confscript", "plan", "--from=a", "--from=b", "--to=c"], 2),
    (&["confscript", "check", "--from=a", "--to=b"], 2),
    (&["confscript", "--version"], 0),
    (&["confscript", "--help"], 0),
    (&["confscript", "lines", "--help"], 0),
    (&["confscript", "help", "lines"], 0),
];

const BAD_IDS: &str = "--down expects ids from 1 with commas between them, as in 4,6";

const HEXADECIMAL: &str =
    "--down expects ids from 1 with commas between them, as in 4,6; ids are decimal: printf \
    '%u\\n' 0x8e9e05c52164694d";

const DIGITS_OF_0X: &str =
    "--down expects ids from 1 with commas between them, as in 4,6; ids are decimal: printf \
    '%u\\n' 0x12";

const FILE_BESIDE: &str = "FILE f beside --from and --to";

const ID_BESIDE: &str = "FILE 3 beside --from and --to; ids are separated by commas: --down 2,4,3";

// Values of `plan` that are refused, and the error.
static BAD_VALUES: [(&[&str], &str); 22] = [
    (&["confscript", "plan", "--down", ""], BAD_IDS),
    (&["confscript", "plan", "--down", "0"], BAD_IDS),
    (&["confscript", "plan", "--down", "1,,2"], BAD_IDS),
    (&["confscript", "plan", "--down", "1,"], BAD_IDS),
    (&["confscript", "plan", "--down", "1 2"], BAD_IDS),
    (
        &["confscript", "plan", "--down", "18446744073709551616"],
        BAD_IDS,
    ),
    (
        &["confscript", "plan", "--down", "8e9e05c52164694d"],
        HEXADECIMAL,
    ),
    (&["confscript", "plan", "--down", "1,0x12,x"], DIGITS_OF_0X),
    (&["confscript", "plan", "--down", "1,x,0x12"], BAD_IDS),
    (
        &["confscript", "plan", "--down", "a1234567890123456"],
        BAD_IDS,
    ),
    (&["confscript", "plan", "--down", "0x"], BAD_IDS),
    (
        &["confscript", "plan", "--down", "x", "--from", "a"],
        BAD_IDS,
    ),
    (
        &["confscript", "plan", "--from", "voters=(1)"],
        "--from needs --to",
    ),
    (
        &["confscript", "plan", "--from", "a", "-"],
        "--from needs --to",
    ),
    (&["confscript", "plan", "--to", "v1"], "--to needs --from"),
    (
        &["confscript", "plan", "--from=a", "--to=b", "f"],
        FILE_BESIDE,
    ),
    (
        &["confscript", "plan", "--from=", "--to=b", "f", "--down=2"],
        FILE_BESIDE,
    ),
    (
        &[
            "confscript",
            "plan",
            "--from=a",
            "--to=b",
            "--down",
            "2,4",
            "3",
        ],
        ID_BESIDE,
    ),
    (
        &["confscript", "plan", "--from=a", "--to=b", "3"],
        "FILE 3 beside --from and --to",
    ),
    (
        &["confscript", "plan", "--from=a", "--to=b", "--down=1", "-"],
        "FILE - beside --from and --to",
    ),
    (
        &["confscript", "plan", "--from=a", "--to=b", "--down=1", "0"],
        "FILE 0 beside --from and --to",
    ),
    (
        &["confscript", "plan", "--from=", "--to="],
        "--from is empty",
    ),
];

// What comes of arguments: what they ask for, the exit status of a usage error or the help, or the error's text.
#[derive(Clone, Copy)]
enum Answer {
    Asked(&'static Asked),
    Ended(i32),
    Refused(&'static str),
}

fn are_down(down: &Option<SessionIds>, expected: Option<&[u64]>) -> bool {
    match (down, expected) {
        (Some(down), Some(ids)) => has_ids(down, ids),
        (None, None) => true,
        _ => false,
    }
}

fn are_texts(pair: Option<PairArguments>, expected: Option<(&str, &str)>) -> bool {
    match pair {
        Some(texts) => Some((texts.from, texts.to)) == expected,
        None => expected.is_none(),
    }
}

fn is_asked(invocation: &Invocation, asked: &Asked) -> bool {
    let options = &invocation.options;
    (invocation.mode == asked.mode)
        & (invocation.file == asked.file)
        & are_texts(invocation.pair, asked.pair)
        & (options.history == asked.history)
        & (options.steps == asked.steps)
        & (options.floor == asked.floor)
        & (options.plan.strategy == asked.strategy)
        & (options.plan.output == asked.output)
        & are_down(&options.plan.down, asked.down)
}

fn is_refusal(rt: &impl Runtime, fault: &ArgumentFault, answer: Answer) -> bool {
    match (fault, answer) {
        (ArgumentFault::Clap(error), Answer::Ended(status)) => error.exit_code() == status,
        (fault, Answer::Refused(message)) => {
            let shown = format!(in rt.alloc(); "{fault}").expect(rt, "a message");
            shown.as_str() == message
        }
        _ => false,
    }
}

fn is_answered(rt: &impl Runtime, arguments: &[&str], answer: Answer) -> bool {
    match command_line(rt.alloc(), arguments) {
        Ok(invocation) => match answer {
            Answer::Asked(asked) => is_asked(&invocation, asked),
            _ => false,
        },
        Err(fault) => is_refusal(rt, &fault, answer),
    }
}

#[test]
fn accepts_arguments(rt: HostRuntime) {
    for (arguments, asked) in &ACCEPTED {
        assert!(rt;
            is_answered(&rt, *arguments, Answer::Asked(asked)),
            "of {arguments:?}"
        );
    }
}

#[test]
fn refuses_arguments(rt: HostRuntime) {
    for (arguments, status) in &REFUSED {
        assert!(rt;
            is_answered(&rt, *arguments, Answer::Ended(*status)),
            "of {arguments:?}"
        );
    }
}

#[test]
fn refuses_values_of_plan(rt: HostRuntime) {
    for (arguments, message) in &BAD_VALUES {
        assert!(rt;
            is_answered(&rt, *arguments, Answer::Refused(*message)),
            "of {arguments:?}"
        );
    }
}

// Short reports over variables and their opposites; what is wanted was worked by hand.
use mixed_print::MixedErr;
use std::alloc::{AllocError, Global};
use std::test::Fail;
use tplib_mixed::mixed_reply;
use tplib_reply::Refusal;
use trop_text::Fault;

// A program, and what is answered to it.
struct Case {
    name: &'static str,
    program: &'static str,
    wanted: &'static str,
}

const CASES: [Case; 6] = [
    Case {
        name: "a number",
        program: "vars x; x := 2;",
        wanted: "mixed 1
delay 2
narrow 0
passes 1
program
vars x;
x := 2;
end
at 0 statement 0
ray [-oo, 0]
ray [0, -oo]
point [-oo, -oo]
at 1 exit
point [2, -2]
inv 0 <= -x + 2
inv 0 <= x - 2
inv x <= -x + 4
inv x <= 2
inv -x <= x - 4
inv -x <= -2
end
",
    },
    Case {
        name: "a claim of a maximum against a minimum",
        program: "vars x; havoc x; assume x >= 0; assume x <= 3; assert max(x, 0) <= min(x + 3, 3);",
        wanted: "mixed 1
delay 2
narrow 0
passes 1
program
vars x;
havoc x;
assume x >= 0;
assume x <= 3;
assert max(x, 0) <= min(x + 3, 3);
end
at 0 statement 0
ray [-oo, 0]
ray [0, -oo]
point [-oo, -oo]
at 1 statement 1
ray [-oo, 0]
ray [0, -oo]
point [-oo, -oo]
at 2 statement 2
ray [0, -oo]
point [0, -oo]
point [0, 0]
inv 0 <= x
inv -x <= x
inv -x <= 0
at 3 statement 3
point [0, -3]
point [0, 0]
point [3, -3]
inv 0 <= -x + 3
inv 0 <= x
inv x <= -x + 6
inv x <= 3
inv -x <= x
inv -x <= 0
at 4 exit
point [0, -3]
point [0, 0]
point [3, -3]
inv 0 <= -x + 3
inv 0 <= x
inv x <= -x + 6
inv x <= 3
inv -x <= x
inv -x <= 0
assert 3 proved
end
",
    },
    Case {
        name: "two guards that leave no state",
        program: "vars x; assume x >= 1; assume x <= 0; assert x = 7;",
        wanted: "mixed 1
delay 2
narrow 0
passes 1
program
vars x;
assume x >= 1;
assume x <= 0;
assert x = 7;
end
at 0 statement 0
ray [-oo, 0]
ray [0, -oo]
point [-oo, -oo]
at 1 statement 1
ray [0, -oo]
point [1, -oo]
point [1, -1]
inv 0 <= x - 1
inv -x <= x - 2
inv -x <= -1
at 2 statement 2
unreachable
at 3 exit
unreachable
assert 2 proved
end
",
    },
    Case {
        name: "32 variables",
        program: "vars a b c d e f g h i j k l m n o p q r s t u v w x y z a1 b1 c1 d1 e1 f1; x := 2;",
        wanted: "too many variables in line 1",
    },
    Case {
        name: "32 variables behind a comment and an empty line",
        program: "# a comment

vars a b c d e f g h i j k l m n o p q r s t u v w x y z a1 b1 c1 d1 e1 f1; x := 2;",
        wanted: "too many variables in line 3",
    },
    Case {
        name: "32 variables and a fault behind them",
        program: "vars a b c d e f g h i j k l m n o p q r s t u v w x y z a1 b1 c1 d1 e1 f1; x := 2",
        wanted: "another fault",
    },
];

// What is answered to the program.
fn outcome(alloc: Global, case: &Case) -> Result<String, Fail> {
    let bytes = case.program.as_bytes();
    if bytes.len() > 100_000 {
        return Ok(format!(in alloc; "too long")?);
    }
    match mixed_reply(alloc, 2, 0, bytes) {
        Ok(reply) => match str::from_utf8(&reply.text) {
            Ok(text) => Ok(String::from_str(alloc, text)?),
            Err(_) => Ok(format!(in alloc; "no text")?),
        },
        Err(Refusal::Text(Fault::TooManyVars { line })) => {
            Ok(format!(in alloc; "too many variables in line {line}")?)
        }
        Err(Refusal::Text(_)) => Ok(format!(in alloc; "another fault")?),
        Err(_) => Ok(format!(in alloc; "refused")?),
    }
}

#[test]
fn short_reports(rt: HostRuntime) -> Result<(), Fail> {
    let alloc = rt.alloc();
    let mut failed = false;
    for case in &CASES {
        let got = outcome(alloc, case)?;
        if got.as_str() != case.wanted {
            println!(rt; "{}: wanted {}\ngot {}", case.name, case.wanted, got)?;
            failed = true;
        }
    }
    assert!(rt; !failed);
    Ok(())
}

fn text_of(alloc: Global, err: MixedErr) -> Result<String, AllocError> {
    format!(in alloc; "{err}")
}

// What is said where there is no short report.
#[test]
fn texts_of_errors(rt: HostRuntime) -> Result<(), Fail> {
    let alloc = rt.alloc();
    for (err, wanted) in [
        (
            MixedErr::Polar(2, 1, 17),
            "the external list of point 2 stops at coordinate 1 with 17 rows",
        ),
        (MixedErr::NoMemory, "no memory"),
    ] {
        let got = text_of(alloc, err)?;
        assert_eq!(rt; got.as_str(), wanted);
    }
    Ok(())
}

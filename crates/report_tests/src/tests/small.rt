use super::reading::read;
use std::test::Fail;
use trop_text::Fault;

// Whole small reports, of both versions and in both modes.
const SMALL: [(&str, Option<Fault>); 12] = [
    (
        "report 1\nmode max\ndelay 2\npasses 1\nprogram\nvars;\nend\nat 0 exit\npoint []\nend\n",
        None,
    ),
    (
        "report 2\nmode max\ndelay 2\nnarrow 3\npasses 1\nprogram\nvars;\nend\nat 0 exit\nunreachable\nend",
        None,
    ),
    (
        "report 2\nmode max\ndelay 2\nnarrow 3\npasses 1\nprogram\nvars;\nend\nat 0 exit\nray []\nend",
        Some(Fault::ReportFault { line: 10 }),
    ),
    (
        "report 2\nmode max\ndelay 2\nnarrow 3\npasses 1\nprogram\nvars;\nend\nat 0 exit\nray [0]\nend",
        Some(Fault::Syntax {
            line: 10,
            column: 6,
        }),
    ),
    (
        "report 1\nmode min\ndelay 0\npasses 1\nprogram\nvars x;\nend\nat 0 exit\npoint [3]\ninv 0 <= x\nend\n",
        None,
    ),
    (
        "report 1\nmode max\ndelay 0\npasses 1\nprogram\nvars x;\nend\nat 0 exit\npoint [-oo]\ninv -oo <= x\nend\n",
        None,
    ),
    (
        "report 1\nmode max\ndelay 0\npasses 1\nprogram\nvars x;\nend\nat 0 exit\npoint [oo]\nend\n",
        Some(Fault::Syntax { line: 9, column: 8 }),
    ),
    (
        "report 1\nmode max\ndelay 0\nnarrow 0\npasses 1\nprogram\nvars x;\nend\nat 0 exit\npoint [0]\nend\n",
        Some(Fault::Syntax { line: 4, column: 1 }),
    ),
    (
        "report 1\nmode max\ndelay 0\npasses 1\nprogram\nvars x; end\nat 0 exit\npoint [0]\nend\n",
        None,
    ),
    (
        "report 1\nmode max\ndelay 0\npasses 1\nprogram\nvars x;\nassert max(x) = 1;\nassert min(x) = 1;\nend\n",
        Some(Fault::AssertMode { line: 8 }),
    ),
    (
        "report 1\nmode max\ndelay 0\npasses 1\nprogram\nvars x;\nassert x = 1;\nend\nat 0 statement 0\npoint [0]\nat 1 exit\npoint [0]\nassert 0 unknown\nend\n",
        None,
    ),
    ("", Some(Fault::Syntax { line: 1, column: 1 })),
];

#[test]
fn small_reports(rt: HostRuntime) -> Result<(), Fail> {
    let mut failed = false;
    for (text, wanted) in &SMALL {
        let got = read(rt.alloc(), text.as_bytes())?;
        if got != *wanted {
            println!(rt; "{text}: wanted {wanted:?}, got {got:?}")?;
            failed = true;
        }
    }
    assert!(rt; !failed);
    Ok(())
}

use crate::measure::Measure;
use crate::turns::{entries_by_mutex, entries_by_turn};
use std::alloc::{AllocError, Global};
use std::test::Fail;

/// Words, and the measurement that they name.
const CASES: [(&str, Option<Measure<'static>>); 21] = [
    ("script 10", Some(Measure::Script { lines: 10 })),
    (
        "turns 8 1000",
        Some(Measure::Turns {
            seats: 8,
            turns: 1000,
        }),
    ),
    (
        "turns 64 0",
        Some(Measure::Turns {
            seats: 64,
            turns: 0,
        }),
    ),
    ("chain 200", Some(Measure::Chain { jobs: 200 })),
    ("fold 65535", Some(Measure::Fold { lines: 65_535 })),
    ("fold 65536", None),
    ("text 1048576", Some(Measure::Text { bytes: 1_048_576 })),
    ("text 1048577", None),
    ("names 131070", Some(Measure::Names { many: 131_070 })),
    ("names 131071", None),
    (
        "blocks 1 10",
        Some(Measure::Blocks {
            blocks: 1,
            times: 10,
        }),
    ),
    ("blocks 0 10", None),
    (
        "folder /tmp 3",
        Some(Measure::Folder {
            folder: "/tmp",
            blocks: 3,
        }),
    ),
    ("folder /tmp", None),
    ("small", Some(Measure::Small)),
    ("", None),
    ("script", None),
    ("script 10 10", None),
    ("turns 0 10", None),
    ("turns 65 10", None),
    ("turn 2 10", None),
];

fn words_of(alloc: Global, line: &str) -> Result<Vec<String>, AllocError> {
    let mut words = Vec::new(alloc);
    for word in line.split(' ') {
        words.push(String::from_str(alloc, word)?)?;
    }
    Ok(words)
}

#[test]
fn words_name_a_measurement(rt: HostRuntime) -> Result<(), Fail> {
    for (line, measure) in CASES {
        let words = words_of(rt.alloc(), line)?;
        assert_eq!(rt; Measure::of(&words), measure, "{line}");
    }
    Ok(())
}

#[test]
fn each_turn_adds_an_entry(rt: HostRuntime) -> Result<(), Fail> {
    assert_eq!(rt; entries_by_turn(&rt, rt.alloc(), 2, 10)?, 20);
    assert_eq!(rt; entries_by_mutex(&rt, rt.alloc(), 2, 10)?, 20);
    Ok(())
}

//! The audit of a history by its definitions.
use crate::history::texts::{history_of, lines_of};
use bg_audit::audit;
use bg_strategy_text::read;
use std::test::Fail;

const BASE: &str = r#"{"spec":{"replicas":2,"strategy":{"blueGreen":{"activeService":"web"}}}}"#;

/// The ports of revision 1, the entries after it, and whether they are legal and settled.
const ROWS: [(&[u16], &str, bool); 8] = [
    (&[9001, 9002], "", true),
    // a revision has as many ports as replicas
    (&[9001], "", false),
    (&[9001, 9002], "available 1 2", true),
    // no attempt runs, so the active service can't be switched
    (&[9001, 9002], "switched 1", false),
    // revision 2 is ready, and the outcome of that is not recorded
    (&[9001, 9002], "deploy 2 v2 9101 9102\navailable 2 2", false),
    (
        &[9001, 9002],
        "available 1 2\nenter 0 active 1 1 9002\nleave 0 1 1",
        true,
    ),
    // request 1 gets the second port
    (
        &[9001, 9002],
        "available 1 2\nenter 0 active 1 1 9001\nleave 0 1 1",
        false,
    ),
    // the first request is 1
    (
        &[9001, 9002],
        "available 1 2\nenter 0 active 0 1 9001\nleave 0 0 1",
        false,
    ),
];

#[test]
fn audits_by_the_definitions(rt: HostRuntime) -> Result<(), Fail> {
    let strategy = read(rt.alloc(), BASE.as_bytes())?;
    for (ports, entries, is_good) in &ROWS {
        let lines = lines_of(rt.alloc(), entries)?;
        let history = history_of(rt.alloc(), 2, ports, &lines)?;
        assert_eq!(rt;
            audit(rt.alloc(), &history, &strategy)?,
            *is_good,
            "{entries}"
        );
    }
    Ok(())
}

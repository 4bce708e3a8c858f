//! The scripts that are played at a book and at a desk. Together they make each call of a desk and each event. What a book
//! answers to many more is in rows/.

/// The settings of `blueGreen` in addition to the active service, and the lines after
/// `open v1 9001 9002`.
pub(super) const SCRIPTS: [(&str, &str); 5] = [
    // drops the entries of closed requests, and of neighbouring ticks all but the last
    (
        "",
        "available 1 2
enter 0 active
enter 1 active
leave 0
compact
tick 1
tick 2
compact",
    ),
    // manual promotion with preview
    (
        r#", "autoPromotionEnabled": false, "previewService": "web-preview""#,
        "available 1 2
deploy v2 9101 9102
available 2 2
report
enter 0 active
enter 1 preview
promote
promote
abort
retry
promote full",
    ),
    // failed analysis before the switch, and a retry
    (
        r#", "prePromotionAnalysis": {"templates": []}"#,
        "deploy v2 9101 9102
available 2 2
promote
verdict pre failed
report
verdict pre failed
promote
abort
deploy v2 9101 9102
retry
report
verdict pre successful",
    ),
    // a request on each seat, one of them twice
    (
        "",
        "enter 0 active
available 1 2
enter 0 active
enter 0 active
enter 1 active
enter 2 preview
enter 3 active
leave 2
leave 0
enter 0 active
enter 9 active
leave 9
report",
    ),
    // requests that are still in at the end
    (
        "",
        "available 1 2
enter 3 active
enter 1 active
deploy v2 9101 9102
available 2 2
enter 0 active
tick 30
report",
    ),
];

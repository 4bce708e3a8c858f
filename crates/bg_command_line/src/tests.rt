//! Worked words of `serve`.

use crate::invocation::InvocationFault;
use crate::{Invocation, parse_command_line};
use std::alloc::Global;
use std::test::Fail;

/// The words that `serve` requires.
const REQUIRED: [&str; 9] = [
    "bg_switch",
    "serve",
    "--active",
    "8080",
    "--control",
    "8081",
    "--concurrency",
    "8",
    "--forever",
];

/// How many bytes of a request are held, how many its body may have and how many that of a response, by these words, beside the
/// required ones; or the first line of the fault.
fn bytes_of_messages<'a>(alloc: Global, words: &[&'a str]) -> Result<String, Fail> {
    let mut all: Vec<&'a str> = Vec::new(alloc);
    for word in REQUIRED {
        all.push(word)?;
    }
    for word in words {
        all.push(*word)?;
    }
    match parse_command_line(alloc, all.as_slice()) {
        Ok(Invocation::Serve(settings)) => Ok(format!(in alloc;
            "{:?} {:?} {:?}",
            settings.buffer, settings.max_request_body, settings.max_response_body
        )?),
        Ok(_) => Ok(format!(in alloc; "no serve")?),
        Err(InvocationFault::Words(error)) => {
            let text = format!(in alloc; "{error}")?;
            Ok(format!(in alloc; "{}", text.as_str().lines().next().unwrap_or(""))?)
        }
        Err(InvocationFault::OutOfMemory) => Ok(format!(in alloc; "out of memory")?),
    }
}

#[test]
fn takes_numbers_of_their_ranges(rt: HostRuntime) -> Result<(), Fail> {
    let rows: [(&[&str], &str); 12] = [
        (&["--stream"], "None None None"),
        (
            &["--buffer", "131072", "--stream"],
            "Some(131072) None None",
        ),
        (&["--stream", "--buffer=16384"], "Some(16384) None None"),
        (
            &["--stream", "--buffer", "1048576"],
            "Some(1048576) None None",
        ),
        (
            &["--max-request-body", "104857600", "--stream"],
            "None Some(104857600) None",
        ),
        (
            &["--stream", "--max-request-body=65536"],
            "None Some(65536) None",
        ),
        (
            &["--stream", "--max-request-body", "1099511627776"],
            "None Some(1099511627776) None",
        ),
        (
            &["--max-response-body", "104857600", "--stream"],
            "None None Some(104857600)",
        ),
        (
            &["--stream", "--max-response-body=65536"],
            "None None Some(65536)",
        ),
        (
            &["--stream", "--max-response-body", "1099511627776"],
            "None None Some(1099511627776)",
        ),
        (
            &[
                "--stream",
                "--buffer",
                "65536",
                "--max-request-body",
                "1048576",
            ],
            "Some(65536) Some(1048576) None",
        ),
        (
            &[
                "--max-response-body",
                "4194304",
                "--stream",
                "--max-request-body",
                "1048576",
            ],
            "None Some(1048576) Some(4194304)",
        ),
    ];
    for (words, expected) in rows {
        let given = bytes_of_messages(rt.alloc(), words)?;
        assert_eq!(rt; given.as_str(), expected);
    }
    Ok(())
}

#[test]
fn refuses_numbers_beyond_their_ranges(rt: HostRuntime) -> Result<(), Fail> {
    let rows: [(&[&str], &str); 7] = [
        (
            &["--stream", "--buffer", "16383"],
            "error: invalid value '16383' for '--buffer <N>': 16383 is not in 16384..=1048576",
        ),
        (
            &["--stream", "--buffer", "1048577"],
            "error: invalid value '1048577' for '--buffer <N>': 1048577 is not in 16384..=1048576",
        ),
        (
            &["--stream", "--max-request-body", "65535"],
            "error: invalid value '65535' for '--max-request-body <N>': 65535 is not in 65536..=1099511627776",
        ),
        (
            &["--stream", "--max-request-body", "1099511627777"],
            "error: invalid value '1099511627777' for '--max-request-body <N>': 1099511627777 is not in 65536..=1099511627776",
        ),
        (
            &["--stream", "--max-response-body", "65535"],
            "error: invalid value '65535' for '--max-response-body <N>': 65535 is not in 65536..=1099511627776",
        ),
        (
            &["--stream", "--max-response-body", "1099511627777"],
            "error: invalid value '1099511627777' for '--max-response-body <N>': 1099511627777 is not in 65536..=1099511627776",
        ),
        (
            &["--stream", "--buffer", "64k"],
            "error: invalid value '64k' for '--buffer <N>': invalid digit found in string",
        ),
    ];
    for (words, expected) in rows {
        let given = bytes_of_messages(rt.alloc(), words)?;
        assert_eq!(rt; given.as_str(), expected);
    }
    Ok(())
}

#[test]
fn refuses_them_without_stream(rt: HostRuntime) -> Result<(), Fail> {
    let buffer = "error: the argument '--buffer <N>' cannot be used without '--stream'";
    let body = "error: the argument '--max-request-body <N>' cannot be used without '--stream'";
    let answer = "error: the argument '--max-response-body <N>' cannot be used without '--stream'";
    let rows: [(&[&str], &str); 6] = [
        (&["--buffer", "65536"], buffer),
        (&["--max-request-body", "65536"], body),
        (
            &[
                "--max-request-body",
                "65536",
                "--buffer",
                "65536",
                "--upgrade",
            ],
            buffer,
        ),
        (&["--max-response-body", "65536"], answer),
        (
            &["--max-response-body", "65536", "--max-request-body=65536"],
            body,
        ),
        (&[], "None None None"),
    ];
    for (words, expected) in rows {
        let given = bytes_of_messages(rt.alloc(), words)?;
        assert_eq!(rt; given.as_str(), expected);
    }
    Ok(())
}

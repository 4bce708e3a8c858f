use super::*;
use sqlite::Unknown;
use std::fs;
use std::test::Fail;

const FOLDER: &str = "bg_journal_store_test";

const JOURNAL: &str = "bg_journal_store_test/journal.db";

const OTHER: &str = "bg_journal_store_test/other.db";

const TWO_ORDERS: [&str; 2] = ["abort\n", "retry\ntick 1\n"];

const SCHEMA: &str = "SELECT sql FROM sqlite_schema";

/// Statements that make a database one that is no journal of this version.
struct Step<'a> {
    path: &'a str,
    statements: &'a str,
    fault: JournalFault,
    query: &'a str,
    /// What the query shows after the statements, and after the refusal.
    shown: &'a str,
}

/// The journal has two orders before the first step.
const STEPS: [Step<'static>; 6] = [
    Step {
        path: JOURNAL,
        statements: "CREATE INDEX by_text ON entries (text)",
        fault: JournalFault::OtherSchema,
        query: "SELECT text FROM entries ORDER BY number",
        shown: "abort\n|retry\ntick 1\n|",
    },
    Step {
        path: JOURNAL,
        statements: "DROP INDEX by_text; UPDATE settings SET text = '2'",
        fault: JournalFault::OtherVersion,
        query: "SELECT text FROM entries UNION ALL SELECT text FROM settings",
        shown: "abort\n|retry\ntick 1\n|2|",
    },
    Step {
        path: JOURNAL,
        statements: "DELETE FROM settings",
        fault: JournalFault::OtherVersion,
        query: "SELECT text FROM entries UNION ALL SELECT text FROM settings",
        shown: "abort\n|retry\ntick 1\n|",
    },
    Step {
        path: JOURNAL,
        statements: "DROP TABLE settings",
        fault: JournalFault::OtherSchema,
        query: "SELECT text FROM entries ORDER BY number",
        shown: "abort\n|retry\ntick 1\n|",
    },
    Step {
        path: OTHER,
        statements: "CREATE TABLE other (number INTEGER PRIMARY KEY, text TEXT) STRICT; INSERT INTO other (text) VALUES ('note')",
        fault: JournalFault::OtherSchema,
        query: "SELECT text FROM other",
        shown: "note|",
    },
    Step {
        path: OTHER,
        statements: "DROP TABLE other; CREATE TABLE settings (number INTEGER PRIMARY KEY, text TEXT NOT NULL) STRICT; INSERT INTO settings (text) VALUES ('1')",
        fault: JournalFault::OtherSchema,
        query: "SELECT text FROM settings",
        shown: "1|",
    },
];

/// Makes an empty folder.
fn begin(rt: &HostRuntime) -> Result<(), Fail> {
    let _ = fs::remove_dir_all(rt, FOLDER);
    fs::create_dir(rt, FOLDER)?;
    Ok(())
}

/// Opens a journal, appends orders and gives all of its texts, with a bar after each.
fn extend_at(
    rt: &HostRuntime,
    path: &str,
    orders: &[&str],
) -> Result<Result<String, JournalFault>, Fail> {
    match Journal::open(rt, path, Unknown) {
        Ok(mut journal) => Ok(Ok(extend(rt.alloc(), &mut journal, orders)?)),
        Err(fault) => Ok(Err(fault)),
    }
}

fn extend<S: Alter>(
    alloc: Global,
    journal: &mut Journal<S>,
    orders: &[&str],
) -> Result<String, Fail> {
    for order in orders {
        journal.append(order)?;
    }
    let mut text = String::new(alloc);
    for one in &journal.read_all(alloc)? {
        text.push_str(one.as_str())?;
        text.push('|')?;
    }
    Ok(text)
}

/// What an open answers while the journal is open.
fn open_twice(rt: &HostRuntime, path: &str) -> Result<Result<String, JournalFault>, Fail> {
    let _journal = Journal::open(rt, path, Unknown)?;
    extend_at(rt, path, &[])
}

/// Runs statements as another program would, and gives what the queries show then, with a bar after each text.
fn run(rt: &HostRuntime, path: &str, statements: &str, queries: &[&str]) -> Result<String, Fail> {
    let mut conn = Connection::open(rt, path)?;
    let mut text = String::new(rt.alloc());
    run_on(&mut conn, statements, queries, &mut text)?;
    conn.close()?;
    Ok(text)
}

fn run_on<S: Alter>(
    conn: &mut Connection<S>,
    statements: &str,
    queries: &[&str],
    text: &mut String,
) -> Result<(), Error> {
    conn.execute_batch(statements)?;
    for query in queries {
        for row in &conn.query_all(query, &[])? {
            text.push_str(row.get::<String>(0)?.as_str())?;
            text.push('|')?;
        }
    }
    Ok(())
}

#[test]
fn orders_are_found_again(rt: HostRuntime) -> Result<(), Fail> {
    let mut in_memory = Journal::in_memory(rt.alloc())?;
    assert_eq!(rt; extend(rt.alloc(), &mut in_memory, &[])?.as_str(), "");
    assert_eq!(rt;
        extend(rt.alloc(), &mut in_memory, &TWO_ORDERS)?.as_str(),
        "abort\n|retry\ntick 1\n|"
    );

    begin(&rt)?;
    assert_eq!(rt; extend_at(&rt, JOURNAL, &[])??.as_str(), "");
    extend_at(&rt, JOURNAL, &TWO_ORDERS)??;
    extend_at(&rt, JOURNAL, &TWO_ORDERS)??;
    assert!(rt; open_twice(&rt, JOURNAL)?.err() == Some(JournalFault::Busy));
    assert_eq!(rt;
        extend_at(&rt, JOURNAL, &[])??.as_str(),
        "abort\n|retry\ntick 1\n|abort\n|retry\ntick 1\n|"
    );
    Ok(())
}

#[test]
fn what_is_no_journal_is_refused_and_kept(rt: HostRuntime) -> Result<(), Fail> {
    begin(&rt)?;
    extend_at(&rt, JOURNAL, &TWO_ORDERS)??;
    for step in &STEPS {
        let made = run(&rt, step.path, step.statements, &[step.query, SCHEMA])?;
        assert!(rt;
            made.as_str().starts_with(step.shown),
            "after {}: {made}",
            step.statements
        );
        let opened = extend_at(&rt, step.path, &TWO_ORDERS)?;
        assert!(rt;
            opened.err() == Some(step.fault),
            "after {}",
            step.statements
        );
        let kept = run(&rt, step.path, "", &[step.query, SCHEMA])?;
        assert_eq!(rt; kept.as_str(), made.as_str(), "after {}", step.statements);
    }

    let path = "bg_journal_store_test/text";
    fs::write(&rt, path, "abort\nretry\n".as_bytes())?;
    let refused = extend_at(&rt, path, &TWO_ORDERS)?.err();
    assert!(rt;
        refused == Some(JournalFault::NoDatabase) || refused == Some(JournalFault::Damaged)
    );
    Ok(())
}

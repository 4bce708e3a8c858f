//! The texts of journals.
use bg_history::Entry;
use bg_journal::{
    TextFault, bound_in, bound_text, has_line, read_entries, read_entry, write_entries, write_entry,
};
use bg_revisions::{Name, Ports, Service};
use std::alloc::Global;
use std::test::Fail;

/// A line of each kind, with the least and the greatest numbers.
const TEXT: &str = "tick 0
tick 18446744073709551615
deploy 2 v2 9101 9102
deploy 18446744073709551615 a-b 1 65535 80
deploy 3 x
available 1 4294967295
verdict pre successful
verdict pre failed
verdict post error
promote
promote full
abort
retry
ready 2
resumed 2
switched 2
promoted 2
scaled_down 1
removed 1
";

/// The number of lines of the text.
const ENTRIES: usize = 19;

/// Lines of no entry.
static OTHER_LINES: [&str; 30] = [
    "",
    " ",
    "tick",
    "tick ",
    "tick 01",
    "tick  1",
    " tick 1",
    "tick 1 ",
    "tick 18446744073709551616",
    "tick -1",
    "tick +1",
    "tick 1\r",
    "ready",
    "ready 1 2",
    "deploy 2",
    "deploy 2  9101",
    "deploy 2 A 9101",
    "deploy 2 a 0",
    "deploy 2 a 65536",
    "deploy 2 a b",
    "deploy x a 1",
    "available 1",
    "available 1 4294967296",
    "verdict pre",
    "verdict pre good",
    "promote half",
    "promote full full",
    "abort 1",
    "enter 0 active 1 1 9001",
    "leave 0 1 1",
];

/// Texts that are not those of entries, and the number of the first line that is that of none.
static OTHER_TEXTS: [(&str, usize); 5] = [
    ("tick 1\nabort", 2),
    ("tick 1\n\n", 2),
    ("x\n", 1),
    ("abort\nretry\nno\nabort\n", 3),
    ("abort", 1),
];

/// Texts that say no bound of request numbers.
static NO_BOUNDS: [&str; 9] = [
    "",
    "requests",
    "requests ",
    "requests 1\n",
    "requests -1",
    "requests 18446744073709551616",
    "request 1",
    " requests 1",
    "tick 1\n",
];

/// The text of the entries of a text.
fn written_again(alloc: Global, text: &str) -> Result<(usize, Vec<u8>), Fail> {
    let entries = read_entries(alloc, text)?;
    let mut written = Vec::new(alloc);
    write_entries(&entries, &mut written)?;
    Ok((entries.len(), written))
}

/// Whether the entry is refused, and nothing is written.
fn is_refused(alloc: Global, entry: &Entry) -> bool {
    let mut written = Vec::new(alloc);
    !has_line(entry) && write_entry(entry, &mut written).is_err() && written.is_empty()
}

/// A deploy of revision 2.
fn deploy(alloc: Global, name: &str, ports: &[u16]) -> Result<Entry, Fail> {
    Ok(Entry::Deploy {
        revision: 2,
        name: Name::new(alloc, name)?,
        ports: Ports::new(alloc, ports)?,
    })
}

#[test]
fn what_was_written_is_read(rt: HostRuntime) -> Result<(), Fail> {
    let (count, written) = written_again(rt.alloc(), TEXT)?;
    assert_eq!(rt; count, ENTRIES);
    assert!(rt; written.as_slice() == TEXT.as_bytes());
    let (count, written) = written_again(rt.alloc(), "")?;
    assert!(rt; count == 0 && written.is_empty());
    Ok(())
}

#[test]
fn other_lines_are_read_as_no_entry(rt: HostRuntime) -> Result<(), Fail> {
    for line in &OTHER_LINES {
        let read = read_entry(rt.alloc(), line)?;
        assert!(rt; read.is_none(), "{line}");
    }
    Ok(())
}

#[test]
fn the_first_line_of_no_entry_is_named(rt: HostRuntime) {
    for (text, line) in &OTHER_TEXTS {
        let fault = read_entries(rt.alloc(), text).err();
        assert!(rt; fault == Some(TextFault::BadLine(*line)), "{text}");
    }
}

#[test]
fn entries_without_a_line_are_refused(rt: HostRuntime) -> Result<(), Fail> {
    let alloc = rt.alloc();
    let enter = Entry::Enter {
        seat: 0,
        service: Service::Active,
        number: 1,
        revision: 1,
        port: 1,
    };
    let leave = Entry::Leave {
        seat: 0,
        number: 1,
        revision: 1,
    };
    assert!(rt; is_refused(alloc, &enter));
    assert!(rt; is_refused(alloc, &leave));
    // it would be read as a deploy of `a` with a port more
    assert!(rt; is_refused(alloc, &deploy(alloc, "a 1", &[5])?));
    assert!(rt; is_refused(alloc, &deploy(alloc, "a", &[5, 0])?));
    Ok(())
}

#[test]
fn bounds_are_read(rt: HostRuntime) -> Result<(), Fail> {
    let greatest = bound_text(rt.alloc(), u64::MAX)?;
    assert!(rt; greatest.as_str() == "requests 18446744073709551615");
    assert!(rt; bound_in(greatest.as_str()) == Some(u64::MAX));
    for text in &NO_BOUNDS {
        assert!(rt; bound_in(text).is_none(), "{text}");
    }
    Ok(())
}

//! Fields that are made by hand.
use bg_http::Fields;
use std::alloc::Global;
use std::io::Write;
use std::test::Fail;

/// A name and a value.
type NameAndValue = (&'static [u8], &'static [u8]);

/// The fields that are made, and a field that is added to them. Then the number of the fields, and their names and
/// values, each name before its value, each in a line of its own.
static ROWS: [(&[NameAndValue], Option<NameAndValue>, &[u8]); 3] = [
    (
        &[(b"Host", b"x"), (b"A", b""), (b"host", b"y z")],
        None,
        b"3\nHost\nx\nA\n\nhost\ny z\n",
    ),
    (
        &[(b"Host", b"x"), (b"A", b""), (b"host", b"y z")],
        Some((b"B", b"c")),
        b"4\nHost\nx\nA\n\nhost\ny z\nB\nc\n",
    ),
    (&[], None, b"0\n"),
];

/// Writes the number of the fields, and their lines.
fn write_lines(fields: &Fields, text: &mut Vec<u8>) -> Result<(), Fail> {
    writeln!(text, "{}", fields.len())?;
    for field in fields.get() {
        for part in [field.name(), field.value()] {
            text.extend_from_slice(part)?;
            text.push(b'\n')?;
        }
    }
    Ok(())
}

/// Makes the fields, and adds one to them.
fn fields_of(
    alloc: Global,
    made: &[NameAndValue],
    added: Option<NameAndValue>,
) -> Result<Fields, Fail> {
    let mut fields = Fields::new(alloc, made)?;
    if let Some((name, value)) = added {
        fields.add(name, value)?;
    }
    Ok(fields)
}

#[test]
fn fields_are_kept_in_order(rt: HostRuntime) -> Result<(), Fail> {
    for (made, added, lines) in &ROWS {
        let mut text = Vec::new(rt.alloc());
        write_lines(&fields_of(rt.alloc(), made, *added)?, &mut text)?;
        assert_eq!(rt; text.as_slice(), *lines);
    }
    Ok(())
}

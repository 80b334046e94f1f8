use crate::{ByteRecord, RowReader, field};
use std::test::Fail;

// Rows as text: fields are joined by `|`, and each row ends in `;`.
fn shown(alloc: std::alloc::Global, bytes: &[u8]) -> Result<Vec<u8>, Fail> {
    let mut text = Vec::new(alloc);
    let mut row = ByteRecord::new(alloc);
    let mut reader = RowReader::new(alloc, bytes);
    'rows: for _ in 0..bytes.len() {
        if !reader.next_row(&mut row)? {
            break 'rows;
        }
        'fields: for place in 0..row.len() {
            if place > 0 {
                text.push(b'|')?;
            }
            text.extend_from_slice(field(&row, place))?;
        }
        text.push(b';')?;
    }
    Ok(text)
}

#[test]
fn reads_rows(rt: HostRuntime) -> Result<(), Fail> {
    let cases: [(&[u8], &[u8]); 14] = [
        (b"", b""),
        (b"\n\r\n\n", b""),
        (b"a,b\nc\n", b"a|b;c;"),
        (b"a,b\r\nc\r\n", b"a|b;c;"),
        (b"a,b\rc", b"a|b;c;"),
        (b"a\n\n\nb", b"a;b;"),
        (b"a,\n,b\n,\n", b"a|;|b;|;"),
        (b"\"\"\n", b";"),
        (b"\"a,\"\"b\nc\",d\n", b"a,\"b\nc|d;"),
        (b"\"a\"b,c\"d\"", b"ab|c\"d\";"),
        (b"\"open,\nto the end", b"open,\nto the end;"),
        (b"\xef\xbb\xbfa,b", b"a|b;"),
        (b"a\n\xef\xbb\xbfb", b"a;\xef\xbb\xbfb;"),
        (b" a ,\xff\xfe\t", b" a |\xff\xfe\t;"),
    ];
    for (bytes, want) in cases {
        let found = shown(rt.alloc(), bytes)?;
        assert!(rt; found.as_slice() == want, "{bytes:?} reads as {found:?}");
    }
    Ok(())
}

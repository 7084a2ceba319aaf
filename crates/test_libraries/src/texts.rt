//! Which bytes are read, and where others stop.
use proof_text::{CertFault, LineReader, read_cert, write_cert};
use std::alloc::Global;
use std::test::Fail;

// A certificate with a line of each kind.
const EACH: &[u8] =
    b"qcert 1\ntrue -4\nh 2\np 1 -5 7 3\np 500 0 1000000000 20000\n.\np 2 10 -10 1\nb 1 0 3\nv 1\ns\no\nb 3 1 1\nn\nt\ne\nx\n.\n";

// The same, and cases of several values.
const RANGES: &[u8] = b"qcert 2\nfalse\nv 1\nr 4\np 1 0 4 1\ne\nr 8\ns\nn\nt\nr 1000000000\no\n.\n";

fn fault(alloc: Global, text: &[u8]) -> Option<CertFault> {
    match read_cert(alloc, &text[..text.len().min(1 << 30)]) {
        Ok(_) => None,
        Err(fault) => Some(fault),
    }
}

// Whether the text is read, and written again as it was.
fn is_read(alloc: Global, text: &[u8]) -> Result<bool, Fail> {
    let cert = read_cert(alloc, &text[..text.len().min(1 << 30)])?;
    let again = write_cert(alloc, &cert)?;
    Ok(again.as_slice() == text)
}

#[test]
fn reads_what_is_written(rt: HostRuntime) -> Result<(), Fail> {
    let rows: [&[u8]; 4] = [
        EACH,
        RANGES,
        b"qcert 1\nopen 10000000\ng\n",
        b"qcert 1\ntrue 4611686018427387904\nx\n",
    ];
    for text in rows {
        assert!(rt; is_read(rt.alloc(), text)?, "at {text:?}");
    }
    Ok(())
}

// A tree as deep as one may be is read, written and let go.
#[test]
fn reads_the_deepest(rt: HostRuntime) -> Result<(), Fail> {
    let alloc = rt.alloc();
    let mut text = Vec::from_slice(alloc, b"qcert 1\ntrue\n")?;
    for _ in 0..1000 {
        text.extend_from_slice(b"n\n")?;
    }
    text.extend_from_slice(b"t\n")?;
    assert!(rt; is_read(alloc, &text)?);
    Ok(())
}

#[test]
fn tells_places(rt: HostRuntime) {
    let rows: [(&[u8], u64); 13] = [
        (b"", 0),
        (b"qcert 1\r\n", 7),
        (b"qcert 1\nfalse\nv 01\n", 16),
        (b"qcert 1\nfalse\nv 501\n", 18),
        (b"qcert 1\nfalse\nb 1 -0 0\n", 19),
        (b"qcert 1\nopen 10000001\n", 20),
        (b"qcert 1\ntrue 4611686018427387905\n", 31),
        (b"qcert 1\nfalse\nh 1\nb", 18),
        (b"qcert 1\nfalse\n\0", 14),
        (b"qcert 1\nfalse\nt\ng\n", 16),
        (b"qcert 3\n", 6),
        (b"qcert 1\ntrue\nv 1\nn\ng\nr 9\ns\n.\n", 21),
        (b"qcert 2\ntrue\nv 1\nr 9\nr 9\n", 21),
    ];
    for (text, at) in rows {
        let told = fault(rt.alloc(), text);
        assert!(rt;
            told == Some(CertFault::NotACertificate { at }),
            "at {text:?}"
        );
    }
}

// How many bytes are left where the first ones are read one by one, and then so many lines whole.
fn left(text: &[u8], first: usize, count: usize) -> usize {
    let mut reader = LineReader::new();
    let mut rest = text;
    for _ in 0..first {
        if let Some((byte, after)) = rest.split_first() {
            let _ = reader.byte(*byte);
            rest = after;
        }
    }
    for _ in 0..count {
        if let Some((_, size)) = reader.line(rest) {
            rest = &rest[size..];
        }
    }
    rest.len()
}

// Each line of a tree is read whole, but for one whose letter was read or that is cut.
#[test]
fn reads_lines_whole(rt: HostRuntime) {
    let rows: [(&[u8], usize, usize, usize); 4] = [
        (EACH, 16, 15, 0),
        (RANGES, 14, 11, 0),
        (EACH, 17, 15, EACH.len() - 17),
        (b"qcert 1\nfalse\nv 1\nb 3 1 1", 14, 2, 7),
    ];
    for (text, first, count, rest) in rows {
        assert_eq!(rt; left(text, first, count), rest, "at {first}");
    }
}

use blif_lines::{LineFault, LineReader};
use rm_base::Place;
use std::alloc::Global;
use std::test::Fail;

// Each token as `word@line:column`, lines apart by `|`, and what ended them.
fn token_text(alloc: Global, text: &[u8]) -> Result<String, Fail> {
    let mut out = String::new(alloc);
    if text.len() > 4_294_967_295 {
        return Ok(out);
    }
    let mut reader = LineReader::new(alloc, text);
    for _ in 0..1_000 {
        match reader.next() {
            Ok(None) => return Ok(out),
            Ok(Some(line)) => {
                for token in line.tokens() {
                    let bytes = text.get(token.start..token.end).unwrap_or(b"?".as_slice());
                    let word = std::str::from_utf8(bytes).unwrap_or("?");
                    let place = token.place;
                    out.push_str(&format!(in alloc; "{word}@{}:{} ", place.line, place.column)?)?;
                }
                out.push_str("|")?;
            }
            Err(LineFault::BadByte(place)) => {
                out.push_str(&format!(in alloc; "bad {}:{}", place.line, place.column)?)?;
                return Ok(out);
            }
            Err(LineFault::OpenJoin(place)) => {
                out.push_str(&format!(in alloc; "open {}:{}", place.line, place.column)?)?;
                return Ok(out);
            }
            Err(LineFault::NoMemory) => return Ok(out),
        }
    }
    Ok(out)
}

const ROWS: [(&str, &str); 26] = [
    ("", ""),
    ("\n\n", ""),
    ("a", "a@1:1 |"),
    ("a\n", "a@1:1 |"),
    (" a\tb\r\n\n c", "a@1:2 b@1:4 |c@3:2 |"),
    ("a b\\\nc d\ne", "a@1:1 b@1:3 c@2:1 d@2:3 |e@3:1 |"),
    ("a\\ \t\r\nb", "a@1:1 b@2:1 |"),
    ("a\\#x\nb", "a@1:1 b@2:1 |"),
    ("a \\ # x \\\nb", "a@1:1 b@2:1 |"),
    ("a # x \\\nb", "a@1:1 |b@2:1 |"),
    ("#\\\nb", "b@2:1 |"),
    ("\\\n\\\nb", "b@3:1 |"),
    ("a\\\n\nb", "a@1:1 |b@3:1 |"),
    ("\\\nb", "b@2:1 |"),
    ("a\\b c", "a\\b@1:1 c@1:5 |"),
    ("a \\\\\nb", "bad 1:3"),
    ("a \\\\\\\nb", "bad 1:4"),
    ("a\\ b", "bad 1:2"),
    ("a\\ b\\ c", "bad 1:2"),
    ("a\n \\", "a@1:1 |open 2:2"),
    ("a\n \\\n", "a@1:1 |open 2:2"),
    ("a\\\nb \\# x", "open 2:3"),
    ("a\n\\\nb\\ c\\", "a@1:1 |bad 3:2"),
    ("a \t\tb\n", "a@1:1 b@1:5 |"),
    ("a\r\r\nb\r", "a@1:1 |b@2:1 |"),
    ("a\\\r\n#\\\nb", "a@1:1 |b@3:1 |"),
];

#[test]
fn lines_and_places(rt: HostRuntime) -> Result<(), Fail> {
    for (text, wanted) in ROWS.iter() {
        let lines = token_text(rt.alloc(), text.as_bytes())?;
        assert!(rt; lines.as_str() == *wanted, "{text:?} gives {lines}");
    }
    Ok(())
}

#[test]
fn bytes_outside_and_inside_comments(rt: HostRuntime) -> Result<(), Fail> {
    for (byte, is_bad) in [
        (0u8, true),
        (8, true),
        (11, true),
        (31, true),
        (127, true),
        (33, false),
        (128, false),
        (255, false),
    ] {
        let lines = token_text(rt.alloc(), &[b'a', byte, b'\n', b'b'])?;
        assert!(rt;
            (lines.as_str() == "bad 1:2") == is_bad,
            "byte {byte} gives {lines}"
        );
        let lines = token_text(rt.alloc(), &[b' ', byte, b'\n', b'b'])?;
        assert!(rt;
            (lines.as_str() == "bad 1:2") == is_bad,
            "byte {byte} gives {lines}"
        );
        let lines = token_text(rt.alloc(), &[b'a', b'#', byte, b'\n', b'b'])?;
        assert!(rt;
            lines.as_str() == "a@1:1 |b@2:1 |",
            "byte {byte} gives {lines}"
        );
    }
    Ok(())
}

#[test]
fn a_fault_is_answered_again(rt: HostRuntime) -> Result<(), Fail> {
    let mut reader = LineReader::new(rt.alloc(), b"a\n# only\n\x01 b\nc");
    assert!(rt; reader.next()?.is_some());
    for _ in 0..3 {
        let fault = reader.next();
        assert!(rt;
            matches!(
                &fault,
                Err(LineFault::BadByte(Place { line: 3, column: 1 }))
            )
        );
    }
    Ok(())
}

#[test]
fn many_joins(rt: HostRuntime) -> Result<(), Fail> {
    let alloc = rt.alloc();
    let mut text = Vec::new(alloc);
    for _ in 0..8_388_608 {
        text.push(92u8)?;
        text.push(10u8)?;
    }
    assert!(rt; text.len() <= 16_777_216);
    let mut reader = LineReader::new(alloc, text.as_slice());
    let fault = reader.next();
    assert!(rt;
        matches!(
            &fault,
            Err(LineFault::OpenJoin(Place {
                line: 8_388_608,
                column: 1
            }))
        )
    );
    Ok(())
}

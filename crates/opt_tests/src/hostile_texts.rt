// Texts of strangers: every beginning of a journal, and long texts of one shape.
use std::test::Fail;
use test_runs::texts::{FOUR_GATES, WIRE_JOURNAL, WITH_A_WIRE};
use test_runs::{refuses, repeat_part};

#[test]
fn beginnings_of_a_journal(rt: HostRuntime) -> Result<(), Fail> {
    let alloc = rt.alloc();
    let mut beginning = String::new(alloc);
    let mut line = 1u32;
    for letter in WIRE_JOURNAL.chars() {
        let put = format!(in alloc; "journal line {line} Truncated\n")?;
        let texts = [FOUR_GATES, WITH_A_WIRE, &beginning];
        assert!(rt; refuses(&rt, rt.alloc(), "check in journal out", texts, 6, &put)?);
        beginning.push(letter)?;
        if letter == '\n' {
            line = line.saturating_add(1);
        }
    }
    Ok(())
}

// As long as a text may be.
#[test]
fn many_joins(rt: HostRuntime) -> Result<(), Fail> {
    let joins = repeat_part(rt.alloc(), "\\\n", 128)?;
    let text = repeat_part(rt.alloc(), &joins, 65_536)?;
    let put = "text 8388608:1 OpenJoin\n";
    assert!(rt;
        refuses(
            &rt,
            rt.alloc(),
            "opt in out journal",
            [&text, "old", "old"],
            1,
            put
        )?
    );
    Ok(())
}

#[test]
fn many_items(rt: HostRuntime) -> Result<(), Fail> {
    let alloc = rt.alloc();
    let items = repeat_part(alloc, " /2,1", 1_000)?;
    let items = repeat_part(alloc, &items, 1_000)?;
    let journal = format!(in alloc; "rambo 1 256\nfix 6 0 1{items}\nend\n")?;
    let put = "journal record 1 BadSplit item 2\n";
    assert!(rt;
        refuses(
            &rt,
            rt.alloc(),
            "check in journal out",
            [FOUR_GATES, "old", &journal],
            6,
            put
        )?
    );
    Ok(())
}

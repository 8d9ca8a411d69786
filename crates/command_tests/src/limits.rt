// Quantities at their limits, and one over them.
use std::alloc::Global;
use std::test::Fail;
use std::thread::Threads;
use test_runs::texts::{NO_GATES_SUMMARY, ONE_GATE};
use test_runs::{ends, hold, refuse_all, refuses, repeat_part, shelf};

// The numbers from 0 on, so many, each between two parts.
fn numbered_parts(alloc: Global, before: &str, after: &str, count: u32) -> Result<String, Fail> {
    let mut text = String::new(alloc);
    for number in 0..count {
        text.push_str(&format!(in alloc; "{before}{number}{after}")?)?;
    }
    Ok(text)
}

// Whether neither command takes the text, and both put this and change no file.
fn is_over_limit<R: Threads + Sync>(
    rt: &R,
    alloc: Global,
    input: &str,
    put: &str,
) -> Result<bool, Fail> {
    let texts = [input, "old", "-"];
    Ok(
        refuses(rt, alloc, "opt in out journal", texts, 5, put)?
            && refuses(rt, alloc, "check in journal out", texts, 5, put)?,
    )
}

// Whether a text without gates is taken, and this is left of it.
fn run_with_limits<R: Threads + Sync>(
    rt: &R,
    alloc: Global,
    input: &str,
    output: &str,
) -> Result<bool, Fail> {
    let mut shelf = shelf(alloc, [input, "old", "-"], &[])?;
    let line = "opt in out journal";
    let ran = ends(rt, alloc, line, &mut shelf, 0, NO_GATES_SUMMARY)?;
    Ok(ran && hold(&shelf, [input, output, "rambo 1 256\nend\n"]))
}

#[test]
fn longest_names(rt: HostRuntime) -> Result<(), Fail> {
    let alloc = rt.alloc();
    let name = repeat_part(alloc, "n", 1_024)?;
    let text = format!(in alloc; ".model m\n.inputs {name}\n.outputs {name}\n.end\n")?;
    assert!(rt; run_with_limits(&rt, alloc, &text, &text)?);
    let text = format!(in alloc; ".model m\n.inputs {name}n\n.outputs {name}\n.end\n")?;
    assert!(rt; is_over_limit(&rt, alloc, &text, "limit name 1025\n")?);
    Ok(())
}

#[test]
fn most_sources(rt: HostRuntime) -> Result<(), Fail> {
    let alloc = rt.alloc();
    let names = numbered_parts(alloc, " i", "", 1_024)?;
    let text = format!(in alloc; ".model m\n.inputs{names}\n.outputs i0\n.end\n")?;
    assert!(rt; run_with_limits(&rt, alloc, &text, &text)?);
    let text = format!(in alloc; ".model m\n.inputs{names} more\n.outputs i0\n.end\n")?;
    assert!(rt; is_over_limit(&rt, alloc, &text, "limit sources 1025\n")?);
    Ok(())
}

#[test]
fn most_observed_points(rt: HostRuntime) -> Result<(), Fail> {
    let alloc = rt.alloc();
    let names = numbered_parts(alloc, " o", "", 4_096)?;
    let covers = numbered_parts(alloc, ".names o", "\n", 4_096)?;
    let text = format!(in alloc; ".model m\n.inputs\n.outputs{names}\n{covers}.end\n")?;
    assert!(rt; run_with_limits(&rt, alloc, &text, &text)?);
    let text = format!(in alloc; ".model m\n.inputs\n.outputs{names} more\n{covers}.end\n")?;
    assert!(rt; is_over_limit(&rt, alloc, &text, "limit observed 4097\n")?);
    Ok(())
}

#[test]
fn most_names(rt: HostRuntime) -> Result<(), Fail> {
    let alloc = rt.alloc();
    let covers = numbered_parts(alloc, ".names k", "\n", 131_071)?;
    let text = format!(in alloc; ".model m\n.inputs a\n.outputs a\n{covers}.end\n")?;
    let left = ".model m\n.inputs a\n.outputs a\n.end\n";
    assert!(rt; run_with_limits(&rt, alloc, &text, left)?);
    Ok(())
}

#[test]
fn one_name_more(rt: HostRuntime) -> Result<(), Fail> {
    let alloc = rt.alloc();
    let covers = numbered_parts(alloc, ".names k", "\n", 131_071)?;
    let text = format!(in alloc; ".model m\n.inputs a\n.outputs a\n{covers}.names more\n.end\n")?;
    assert!(rt; is_over_limit(&rt, alloc, &text, "limit signals 131073\n")?);
    Ok(())
}

#[test]
fn most_inputs_of_a_cover(rt: HostRuntime) -> Result<(), Fail> {
    let alloc = rt.alloc();
    let reads = repeat_part(alloc, " a", 65_536)?;
    let text = format!(in alloc; ".model m\n.inputs a\n.outputs z\n.names{reads} z\n.end\n")?;
    let left = ".model m\n.inputs a\n.outputs z\n.names z\n.end\n";
    assert!(rt; run_with_limits(&rt, alloc, &text, left)?);
    let text = format!(in alloc; ".model m\n.inputs a\n.outputs z\n.names{reads} a z\n.end\n")?;
    assert!(rt; is_over_limit(&rt, alloc, &text, "limit inputs 65537\n")?);
    Ok(())
}

// A cover over so many readings of one input, with a row of ones.
fn wide(alloc: Global, count: u32, output: &str) -> Result<String, Fail> {
    let reads = repeat_part(alloc, " a", count)?;
    let ones = repeat_part(alloc, "1", count)?;
    Ok(format!(in alloc; ".names{reads} {output}\n{ones} 1\n")?)
}

// A model with two such covers.
fn two_wide(alloc: Global, first: u32, second: u32) -> Result<String, Fail> {
    let first = wide(alloc, first, "y")?;
    let second = wide(alloc, second, "z")?;
    Ok(format!(in alloc; ".model m\n.inputs a\n.outputs y z\n{first}{second}.end\n")?)
}

const WIDTHS: &[(u32, u32, &str)] = &[
    (40_000, 40_000, "limit pins 80000\n"),
    (32_768, 32_769, "limit pins 65537\n"),
];

#[test]
fn more_wires(rt: HostRuntime) -> Result<(), Fail> {
    let alloc = rt.alloc();
    for (first, second, put) in WIDTHS {
        let text = two_wide(alloc, *first, *second)?;
        assert!(rt; is_over_limit(&rt, alloc, &text, put)?, "{put}");
    }
    Ok(())
}

// The first model counts before the second is read, and the second before their names are compared.
#[test]
fn more_wires_of_either(rt: HostRuntime) -> Result<(), Fail> {
    let alloc = rt.alloc();
    let text = two_wide(alloc, 40_000, 40_000)?;
    let line = "equal in out journal";
    let rows = [
        (line, [text.as_str(), "-", "old"], 5u8, "limit pins 80000\n"),
        (
            line,
            [ONE_GATE, text.as_str(), "old"],
            5,
            "second limit pins 80000\n",
        ),
    ];
    refuse_all(&rt, alloc, &rows)
}

// Whether `flat` doesn't take the text, and `cut` and `sew` do.
fn longer_texts_are_cut<R: Threads + Sync>(
    rt: &R,
    alloc: Global,
    input: &str,
) -> Result<bool, Fail> {
    let texts = [input, "old", "-"];
    let refused = refuses(rt, alloc, "flat in out", texts, 5, "limit text 16777217\n")?;
    let mut shelf = shelf(alloc, texts, &[])?;
    let cut = ends(rt, alloc, "cut in 4 w", &mut shelf, 0, "cut 1 1\n")?;
    let sewn = ends(rt, alloc, "sew in 4 w out", &mut shelf, 0, "sewn 1 0 2 2\n")?;
    Ok(refused && cut && sewn)
}

#[test]
fn longest_texts(rt: HostRuntime) -> Result<(), Fail> {
    let alloc = rt.alloc();
    let line = repeat_part(alloc, "#", 4_096)?;
    let mut text = repeat_part(alloc, &line, 4_096)?;
    assert!(rt;
        refuses(
            &rt,
            alloc,
            "opt in out journal",
            [&text, "old", "-"],
            1,
            "text 1:1 NoModel\n"
        )?
    );
    text.push('#')?;
    assert!(rt; is_over_limit(&rt, alloc, &text, "limit text 16777217\n")?);
    text.push('\n')?;
    text.push_str(ONE_GATE)?;
    assert!(rt; longer_texts_are_cut(&rt, alloc, &text)?);
    Ok(())
}

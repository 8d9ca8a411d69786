// Tests of numbered names.
use crate::ways::ways;
use rm_base::NoMemory;
use rm_model::{NameKeys, NameTable};
use std::alloc::Global;
use std::process::Abort;
use std::test::Fail;

const ADDED: [&str; 6] = ["b", "a", "b", "", "ab", "a"];

const PLACES: [(&str, Option<usize>); 5] = [
    ("b", Some(0)),
    ("a", Some(1)),
    ("", Some(2)),
    ("ab", Some(3)),
    ("aa", None),
];

// Names that a hash doesn't tell apart: the last 14 bits of it are the same for the first four under keys of zeros, and for the
// next four under the fixed seed of the kit's tables; the others share the number by which names are ordered first.
const COLLIDING: [&str; 12] = [
    "awcy",
    "bbcb",
    "colb",
    "duik",
    "AAABWJ",
    "AAAMdD",
    "AAAMzo",
    "AAAaaI",
    "ilknjghnqklpqnkrilpmmfrlmphg",
    "ilknjghnqklpqnphqnkmmthnmkrt",
    "qoomqtsmjpnjilkrilpmmfrlmphg",
    "qoomqtsmjpnjilphqnkmmthnmkrt",
];

// Names with one long beginning, each below the one before it.
fn descending(alloc: Global, count: u32) -> Result<Vec<String>, NoMemory> {
    let mut names = Vec::new(alloc);
    for number in 0..count.min(9_000) {
        let end = 9_999 - number;
        names.push(format!(in alloc; "a_beginning_that_all_of_these_names_have_in_common_{end}")?)?;
    }
    Ok(names)
}

fn table_of<'a>(
    alloc: Global,
    keys: NameKeys,
    names: &'a [String],
) -> Result<NameTable<'a>, NoMemory> {
    let mut table = NameTable::new(alloc, keys);
    for name in names {
        table.include(name.as_bytes())?;
    }
    Ok(table)
}

#[test]
fn descending_names_are_numbered_in_order(rt: HostRuntime) -> Result<(), Fail> {
    let names = descending(rt.alloc(), 3_000)?;
    for keys in ways()? {
        let table = table_of(rt.alloc(), keys, names.as_slice())?;
        for (place, name) in names.iter().enumerate() {
            assert!(rt; table.place(name.as_bytes()) == Some(place));
        }
        assert!(rt; table.place("a_beginning".as_bytes()).is_none());
    }
    Ok(())
}

#[test]
fn a_name_that_comes_again_keeps_its_number(rt: HostRuntime) -> Result<(), Fail> {
    for keys in ways()? {
        let mut table = NameTable::new(rt.alloc(), keys);
        for name in &ADDED {
            table.include(name.as_bytes())?;
        }
        for (name, place) in &PLACES {
            assert!(rt; table.place(name.as_bytes()) == *place);
            assert!(rt; table.has(name.as_bytes()) == place.is_some());
        }
    }
    Ok(())
}

#[test]
fn names_that_share_a_hash_are_told_apart(rt: HostRuntime) -> Result<(), Fail> {
    for keys in ways()? {
        let mut table = NameTable::new(rt.alloc(), keys);
        for name in &COLLIDING {
            assert!(rt; !table.has(name.as_bytes()));
            table.include(name.as_bytes())?;
        }
        for (place, name) in COLLIDING.iter().enumerate() {
            assert!(rt; table.place(name.as_bytes()) == Some(place));
        }
    }
    Ok(())
}

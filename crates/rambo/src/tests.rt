//! The top call over the real files and standard output.
use host_devices::{FileShelf, StdoutSink, Watch};
use rambo_cli::{NameKeys, run};
use rm_base::{OpenGate, Shelf};
use std::alloc::{AllocError, Global};
use std::test::Fail;

const INPUT: &[u8] = b".model r1\n.inputs a b\n.outputs z\n.names a b z\n11 1\n.end\n";

const JOURNAL: &[u8] =
    b"rambo 1 256\nhit 4 0 0 11\nhit 4 0 1 01\nhit 4 1 0 11\nhit 4 1 1 10\nend\n";

fn words(alloc: Global) -> Result<Vec<String>, AllocError> {
    let mut words = Vec::new(alloc);
    for word in ["opt", "plain_in", "plain_out", "plain_journal"] {
        words.push(String::from_str(alloc, word)?)?;
    }
    Ok(words)
}

#[test]
fn a_run_leaves_the_output_and_the_journal(rt: HostRuntime) -> Result<(), Fail> {
    let alloc = rt.alloc();
    let watch = Watch::quiet(&rt, rt.stderr());
    let mut shelf = FileShelf::new(&rt, alloc, &watch);
    shelf.create("plain_in")?;
    shelf.append("plain_in", INPUT)?;
    let words = words(alloc)?;
    let mut sink = StdoutSink::new(&rt, alloc);
    assert_eq!(rt;
        run(
            &rt,
            alloc,
            NameKeys::Ordered,
            words.as_slice(),
            &mut shelf,
            &mut sink,
            &OpenGate
        ),
        0
    );
    for (name, wanted) in [("plain_out", INPUT), ("plain_journal", JOURNAL)] {
        let found = shelf.read(name, 0, 999)?.ok_or("no file")?;
        assert_eq!(rt; found.as_slice(), wanted);
    }
    Ok(())
}

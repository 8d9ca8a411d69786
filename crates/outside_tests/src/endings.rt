//! What each ending of a run shows, from the line that it printed.
use super::messages::{shown, words_of};
use std::test::Fail;

// Words of a run, what it printed, the text of which that speaks, and what is shown.
const ENDINGS: [(&str, &str, &str, &str); 19] = [
    (
        "opt bad.blif o j",
        "text 5:2 RowCharacter\n",
        ".model m\n.inputs a b\n.outputs z\n.names a b z\n1x 1\n.end\n",
        "bad.blif:5:2: error: 'x' in a row: inputs are 0, 1 or -, and the output is 0 or 1 [RowCharacter]\n  1x 1\n   ^\nhint: write - for an input that doesn't matter\n",
    ),
    (
        "opt --depth 1 m.v o j",
        "text 1:1 NoModel\n",
        "module m(a);\n",
        "m.v:1:1: error: this is Verilog, not BLIF [NoModel]\nhint: yosys -p 'read_verilog FILE; synth -flatten; write_blif NEW.blif'; see docs/flows.md\n",
    ),
    (
        "opt b o j",
        "text 2:1 NoModel\n",
        "# a comment\nINPUT(G0)\n",
        "b:2:1: error: this is a netlist in the bench format, not BLIF [NoModel]\nhint: convert it: abc -c 'read_bench FILE; write_blif NEW.blif'\n",
    ),
    (
        "opt e o j",
        "text 1:1 NoModel\n",
        "",
        "e:1:1: error: the text is empty, or has comments alone [NoModel]\nhint: put '.model NAME' first\n",
    ),
    (
        "opt s o j",
        "text 4:1 Unsupported\n",
        ".model m\n.inputs a\n.outputs z\n.subckt inv A=a Y=z\n.end\n",
        "s:4:1: error: '.subckt' is not part of a flat BLIF model [Unsupported]\n  .subckt inv A=a Y=z\n  ^\nhint: rambo flat IN NEW.blif joins the models of a text into one; if the cell is a flip-flop, see docs/flows.md\n",
    ),
    (
        "opt d o j",
        "text 6:10 DoubleDriven\n",
        ".model m\n.inputs a b\n.outputs z\n.names a z\n1 1\n.names b z\n1 1\n.end\n",
        "d:6:10: error: 'z' is driven twice [DoubleDriven]\n  .names b z\n           ^\nd:4:10: note: it is driven here first\n",
    ),
    (
        "opt u o j",
        "text 4:10 Undriven\n",
        ".model m\n.inputs a B\n.outputs z\n.names a b z\n11 1\n.end\n",
        "u:4:10: error: nothing drives 'b' [Undriven]\n  .names a b z\n           ^\nu:2:11: note: 'B' is driven here; upper and lower case differ\nhint: list it under .inputs, or drive it: '.names NAME' without rows is 0\n",
    ),
    (
        "opt t o j",
        "text 2:10 BadByte\n",
        ".model m\n.inputs\ta\u{7}\u{1b}[31mb\n",
        "t:2:10: error: a control character, or a backslash at the end of a word [BadByte]\n  .inputs\\x09a\\x07\\x1b[31mb\n              ^\nhint: the file may be binary, or hold an escaped Verilog name; names may hold [ ] . $ and : as they are\n",
    ),
    (
        "opt w o j",
        "limit sources 1025\n",
        "",
        "w: error: it has 1025 or more primary inputs, clocks and latch outputs together; at most 1024 are allowed\nhint: split the design into blocks\n",
    ),
    (
        "check i j o",
        "limit journal 4611686018427387905\n",
        "",
        "j: error: it has 4611686018427387905 bytes or more, and is no journal\n",
    ),
    (
        "check i j o",
        "journal record 10 VectorMisses\n",
        "hit 8 0 0 0101",
        "j:11: error: the vector doesn't detect the fault [VectorMisses]\n  hit 8 0 0 0101\nhint: the journal belongs to another IN, or was changed after the run; run opt again\n",
    ),
    (
        "check i j o",
        "netlist 12\n",
        ".model r3\n.inputs a b\n",
        "o:2:2: error: it differs from the netlist at the end of the journal, first at byte 12\n  .inputs a b\n   ^\nhint: OUT was edited, formatted, or written by another run\n",
    ),
    ("opt a b c", "memory\n", "", "rambo: error: out of memory\n"),
    (
        "flat h o",
        "text 3:9 UnknownModel\n",
        ".model m\n.outputs q\n.subckt ff D=q Q=q\n.end\n",
        "h:3:9: error: the text has no model 'ff' [UnknownModel]\n  .subckt ff D=q Q=q\n          ^\nhint: add the model to the text; let yosys make latches of flip-flop cells by dfflegalize and simplemap, see docs/flows.md\n",
    ),
    (
        "flat h o",
        "text 9:10 DoubleDriven\n",
        ".model m\n.inputs z\n.outputs z\n.end\n.model n\n.inputs a\n.names a z\n1 1\n.names a z\n0 1\n",
        "h:9:10: error: 'z' is driven twice [DoubleDriven]\n  .names a z\n           ^\nh:7:10: note: it is driven here first\n",
    ),
    (
        "flat h o",
        "limit flat 4194305\n",
        "",
        "h: error: it has 4194305 or more tokens once every call is written out; at most 4194304 are allowed\nhint: flatten and optimise the design block by block\n",
    ),
    (
        "cut h 300 w",
        "limit text 4294967296\n",
        "",
        "h: error: it has 4294967296 bytes or more; at most 4294967295 can be read\nhint: split the design, or shorten its names\n",
    ),
    (
        "sew h 300 w o",
        "limit windows 1048577\n",
        "",
        "h: error: it gives 1048577 windows; at most 1048576 are allowed\nhint: a greater WIDTH gives fewer windows\n",
    ),
    (
        "flat h h",
        "words refused\n",
        "",
        "rambo: error: IN and OUT are both 'h'; the names must differ\nusage: rambo flat IN OUT\n",
    ),
];

// The same of journals of version 2, and of what is converted.
const VERSIONS: [(&str, &str, &str, &str); 10] = [
    (
        "check i j o",
        "journal record 1 BadLine item 1\n",
        "",
        "j:2: error: an implication doesn't follow from what is known [BadLine item 1]\nhint: the journal belongs to another IN, or was changed after the run; run opt again\n",
    ),
    (
        "check i j o",
        "journal line 21 Truncated\n",
        "",
        "j:21: error: the text ends without 'end': the run didn't come to its end, or the file was cut short [Truncated]\nhint: rambo replay IN JOURNAL NEW makes the steps that are there\n",
    ),
    (
        "check i j o",
        "journal record 1 BadLine item 1\n",
        "rambo 2\n",
        "j: record 1: error: an implication doesn't follow from what is known [BadLine item 1]\nhint: the journal belongs to another IN, or was changed after the run; run opt again\n",
    ),
    (
        "tests i j o p",
        "journal entry 0 BadHeader\n",
        "",
        "j: header: error: the header isn't 'rambo 2', a budget from 1 to 1048576 and a count of records [BadHeader]\n",
    ),
    (
        "check i j o",
        "journal entry 3 BadRecord\n",
        "",
        "j: record 3: error: the bytes are no record [BadRecord]\n",
    ),
    (
        "check i j o",
        "journal entry 20 Truncated\n",
        "",
        "j: record 20: error: the bytes end before the last record: the file was cut short [Truncated]\nhint: rambo replay IN JOURNAL NEW makes the steps that are there\n",
    ),
    (
        "check i j o",
        "journal entry 20 AfterEnd\n",
        "",
        "j: record 20: error: something follows the last record [AfterEnd]\n",
    ),
    (
        "convert f t",
        "journal line 2 BadRecord\n",
        "fix 06 0 1 .",
        "f:2: error: the line is no record [BadRecord]\n  fix 06 0 1 .\n",
    ),
    (
        "convert f t",
        "journal line 1 BadHeader\n",
        "rambo 2\n",
        "f:1: error: the first line isn't 'rambo 1 BUDGET': another file, another version, or carriage returns [BadHeader]\nhint: the journal is of version 2 already\n",
    ),
    (
        "convert f t",
        "limit journal 4611686018427387905\n",
        "",
        "f: error: it has 4611686018427387905 bytes or more, and is no journal\n",
    ),
];

// The same of two netlists that are compared.
const COMPARISONS: [(&str, &str, &str, &str); 11] = [
    (
        "equal a b p",
        "text 5:2 RowCharacter\n",
        ".model m\n.inputs a b\n.outputs z\n.names a b z\n1x 1\n.end\n",
        "a:5:2: error: 'x' in a row: inputs are 0, 1 or -, and the output is 0 or 1 [RowCharacter]\n  1x 1\n   ^\nhint: write - for an input that doesn't matter\n",
    ),
    (
        "equal a b p",
        "second text 5:2 RowCharacter\n",
        ".model m\n.inputs a b\n.outputs z\n.names a b z\n1x 1\n.end\n",
        "b:5:2: error: 'x' in a row: inputs are 0, 1 or -, and the output is 0 or 1 [RowCharacter]\n  1x 1\n   ^\nhint: write - for an input that doesn't matter\n",
    ),
    (
        "equal --depth 2 a b p",
        "second text 1:1 NoModel\n",
        "module m(a);\n",
        "b:1:1: error: this is Verilog, not BLIF [NoModel]\nhint: yosys -p 'read_verilog FILE; synth -flatten; write_blif NEW.blif'; see docs/flows.md\n",
    ),
    (
        "equal a b p",
        "limit signals 131073\n",
        "",
        "a: error: it has 131073 or more different names; at most 131072 are allowed\nhint: split the design into blocks\n",
    ),
    (
        "equal a b p",
        "second limit pins 70000\n",
        "",
        "b: error: it needs 70000 wires as And, Or, Not and Xor gates; at most 65536 are allowed\nhint: let abc minimise the covers first, or split the design into blocks\n",
    ),
    (
        "equal a b p",
        "unlike sources 2\n",
        "",
        "b: error: its sources aren't those of 'a', first at place 2\nhint: the sources are the inputs, then the clocks, then the outputs of latches; their order counts\n",
    ),
    (
        "equal a b p",
        "unlike observed 1\n",
        "",
        "b: error: its observed names aren't those of 'a', first at place 1\nhint: the observed names are the outputs, then the inputs of latches, then their controls; their order counts\n",
    ),
    (
        "equal a b p",
        "differ 10\n",
        "",
        "rambo: note: under these values A and B give an observed name different values: first those of the inputs, then of the clocks, then of the outputs of latches\n",
    ),
    (
        "equal a b p",
        "differ\n",
        "",
        "rambo: note: A and B give an observed name different values; they have no sources\n",
    ),
    (
        "equal a b p",
        "undecided 256\n",
        "",
        "rambo: note: with a budget of 256 the search found neither a difference nor a proof\nhint: a larger --budget decides more, and with n sources one of 2^(n+1) decides all; or try --depth 2\n",
    ),
    (
        "equal a b p",
        "memory\n",
        "",
        "rambo: error: out of memory\n",
    ),
];

// The same of a proof that is replayed.
const PROOFS: [(&str, &str, &str, &str); 16] = [
    (
        "judge a b p",
        "text 5:2 RowCharacter\n",
        ".model m\n.inputs a b\n.outputs z\n.names a b z\n1x 1\n.end\n",
        "a:5:2: error: 'x' in a row: inputs are 0, 1 or -, and the output is 0 or 1 [RowCharacter]\n  1x 1\n   ^\nhint: write - for an input that doesn't matter\n",
    ),
    (
        "judge a b p",
        "second text 5:2 RowCharacter\n",
        ".model m\n.inputs a b\n.outputs z\n.names a b z\n1x 1\n.end\n",
        "b:5:2: error: 'x' in a row: inputs are 0, 1 or -, and the output is 0 or 1 [RowCharacter]\n  1x 1\n   ^\nhint: write - for an input that doesn't matter\n",
    ),
    (
        "judge a p b",
        "second text 1:1 NoModel\n",
        "rambo-equal 1 256\nsame .\n",
        "p:1:1: error: this is a proof of rambo, not BLIF [NoModel]\nhint: A and B are the first names of judge, and PROOF is the third\n",
    ),
    (
        "judge a b p",
        "unlike observed 3\n",
        "",
        "b: error: its observed names aren't those of 'a', first at place 3\nhint: the observed names are the outputs, then the inputs of latches, then their controls; their order counts\n",
    ),
    (
        "judge a b p",
        "limit journal 4611686018427387905\n",
        "",
        "p: error: it has 4611686018427387905 bytes or more, and is no proof\n",
    ),
    (
        "judge a b p",
        "second limit pins 70000\n",
        "",
        "b: error: it needs 70000 wires as And, Or, Not and Xor gates; at most 65536 are allowed\nhint: let abc minimise the covers first, or split the design into blocks\n",
    ),
    (
        "judge a b p",
        "proof BadHeader 1\n",
        ".model b",
        "p:1: error: the first line isn't 'rambo-equal 1 BUDGET' or 'rambo-equal 2 BUDGET': another file, another version, or carriage returns [BadHeader]\n  .model b\nhint: the proof is of other netlists, or was changed; rambo equal writes it anew\n",
    ),
    (
        "judge a b p",
        "proof BadHeader 1\n",
        "rambo 2\n",
        "p:1: error: the first line isn't 'rambo-equal 1 BUDGET' or 'rambo-equal 2 BUDGET': another file, another version, or carriage returns [BadHeader]\nhint: the proof is of other netlists, or was changed; rambo equal writes it anew\n",
    ),
    (
        "judge a b p",
        "proof BadRecord 2\n",
        "differs 10",
        "p:2: error: the line is none that a proof may have there [BadRecord]\n  differs 10\nhint: the proof is of other netlists, or was changed; rambo equal writes it anew\n",
    ),
    (
        "judge a b p",
        "proof Truncated 4\n",
        "",
        "p:4: error: the text ends before its last line is whole: the file was cut short [Truncated]\nhint: the proof is of other netlists, or was changed; rambo equal writes it anew\n",
    ),
    (
        "judge a b p",
        "proof AfterEnd 3\n",
        "x",
        "p:3: error: something follows the last line [AfterEnd]\n  x\nhint: the proof is of other netlists, or was changed; rambo equal writes it anew\n",
    ),
    (
        "judge a b p",
        "proof record 2 NoStep\n",
        "hit 8 0 0 0101",
        "p:3: error: the record is no step [NoStep]\n  hit 8 0 0 0101\nhint: the proof is of other netlists, or was changed; rambo equal writes it anew\n",
    ),
    (
        "judge a b p",
        "proof record 1 VectorMisses\n",
        "differ 11",
        "p:2: error: the netlists have the same values under the vector, or it hasn't one bit for each source [VectorMisses]\n  differ 11\nhint: the proof is of other netlists, or was changed; rambo equal writes it anew\n",
    ),
    (
        "judge a b p",
        "proof record 1 BadLine item 2\n",
        "same a g6",
        "p:2: error: an implication doesn't follow from what is known [BadLine item 2]\n  same a g6\nhint: the proof is of other netlists, or was changed; rambo equal writes it anew\n",
    ),
    (
        "judge a b p",
        "proof record 1 SpentShort 1 256\n",
        "spent /2,1 @ ?",
        "p:2: error: the search ended before its budget was used up [SpentShort 1 256]\n  spent /2,1 @ ?\nhint: the proof is of other netlists, or was changed; rambo equal writes it anew\n",
    ),
    (
        "judge a b p",
        "proof NotOne\n",
        "",
        "p: error: the steps don't make the miter the constant One [NotOne]\nhint: the proof is of other netlists, or was changed; rambo equal writes it anew\n",
    ),
];

// The same of a netlist with its care netlist.
const CARES: [(&str, &str, &str, &str); 6] = [
    (
        "optcare i c o t",
        "text 5:2 RowCharacter\n",
        ".model m\n.inputs a b\n.outputs z\n.names a b z\n1x 1\n.end\n",
        "i:5:2: error: 'x' in a row: inputs are 0, 1 or -, and the output is 0 or 1 [RowCharacter]\n  1x 1\n   ^\nhint: write - for an input that doesn't matter\n",
    ),
    (
        "optcare i c o t --budget 8",
        "second text 5:2 RowCharacter\n",
        ".model m\n.inputs a b\n.outputs z\n.names a b z\n1x 1\n.end\n",
        "c:5:2: error: 'x' in a row: inputs are 0, 1 or -, and the output is 0 or 1 [RowCharacter]\n  1x 1\n   ^\nhint: write - for an input that doesn't matter\n",
    ),
    (
        "optcare i c o t",
        "second text 4:1 Unsupported\n",
        ".model m\n.inputs a\n.outputs a\n.exdc\n.end\n",
        "c:4:1: error: '.exdc' is not part of a flat BLIF model [Unsupported]\n  .exdc\n  ^\nhint: delete the don't-care section; rambo optcare reads a netlist of its own that is 1 where values count\n",
    ),
    (
        "optcare i c o t",
        "second limit sources 1025\n",
        "",
        "c: error: it has 1025 or more primary inputs, clocks and latch outputs together; at most 1024 are allowed\nhint: split the design into blocks\n",
    ),
    (
        "optcare i c o t",
        "unlike sources 2\n",
        "",
        "c: error: its sources aren't those of 'i', first at place 2\nhint: the sources are the inputs, then the clocks, then the outputs of latches; their order counts\n",
    ),
    (
        "optcare --depth 0 i c o t",
        "care shape\n",
        "",
        "c: error: CARE has to have exactly one output, and no latches and no clocks\nhint: its .inputs line lists all sources of IN in order: the inputs, then the clocks, then the outputs of latches; its output is 1 where the values of IN count\n",
    ),
];

#[test]
fn endings_are_explained(rt: HostRuntime) -> Result<(), Fail> {
    let alloc = rt.alloc();
    for (words, printed, text, wanted) in ENDINGS {
        let given = words_of(alloc, words)?;
        let found = shown(alloc, given.as_slice(), printed, text.as_bytes(), None)?;
        assert_eq!(rt; found.as_slice(), wanted.as_bytes(), "{printed}");
    }
    Ok(())
}

#[test]
fn versions_are_explained(rt: HostRuntime) -> Result<(), Fail> {
    let alloc = rt.alloc();
    for (words, printed, text, wanted) in VERSIONS {
        let given = words_of(alloc, words)?;
        let found = shown(alloc, given.as_slice(), printed, text.as_bytes(), None)?;
        assert_eq!(rt; found.as_slice(), wanted.as_bytes(), "{printed}");
    }
    Ok(())
}

#[test]
fn comparisons_are_explained(rt: HostRuntime) -> Result<(), Fail> {
    let alloc = rt.alloc();
    for (words, printed, text, wanted) in COMPARISONS {
        let given = words_of(alloc, words)?;
        let found = shown(alloc, given.as_slice(), printed, text.as_bytes(), None)?;
        assert_eq!(rt; found.as_slice(), wanted.as_bytes(), "{printed}");
    }
    Ok(())
}

#[test]
fn proofs_are_explained(rt: HostRuntime) -> Result<(), Fail> {
    let alloc = rt.alloc();
    for (words, printed, text, wanted) in PROOFS {
        let given = words_of(alloc, words)?;
        let found = shown(alloc, given.as_slice(), printed, text.as_bytes(), None)?;
        assert_eq!(rt; found.as_slice(), wanted.as_bytes(), "{printed}");
    }
    Ok(())
}

#[test]
fn cares_are_explained(rt: HostRuntime) -> Result<(), Fail> {
    let alloc = rt.alloc();
    for (words, printed, text, wanted) in CARES {
        let given = words_of(alloc, words)?;
        let found = shown(alloc, given.as_slice(), printed, text.as_bytes(), None)?;
        assert_eq!(rt; found.as_slice(), wanted.as_bytes(), "{printed}");
    }
    Ok(())
}

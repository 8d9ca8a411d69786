// Formats that are taken for BLIF by mistake, told by the first bytes of a file.

use crate::journals::JOURNAL_OF_BYTES;

/// A format, the bytes with which it begins, and how it becomes BLIF.
#[derive(Clone, Copy)]
pub(crate) struct Format {
    pub(crate) begin: &'static [u8],
    pub(crate) name: &'static str,
    pub(crate) hint: &'static str,
}

const JOURNAL_HINT: &str =
    "IN is the first name, and of check, tests and replay JOURNAL the second";

const FORMATS: [Format; 22] = [
    Format {
        begin: b"\x1f\x8b",
        name: "this is gzip data, not BLIF",
        hint: "gzip -dc FILE | rambo opt /dev/stdin OUT JOURNAL",
    },
    Format {
        begin: b"\xfd7zXZ",
        name: "this is xz data, not BLIF",
        hint: "xz -dc FILE | rambo opt /dev/stdin OUT JOURNAL",
    },
    Format {
        begin: b"\x28\xb5\x2f\xfd",
        name: "this is zstd data, not BLIF",
        hint: "zstd -dc FILE | rambo opt /dev/stdin OUT JOURNAL",
    },
    Format {
        begin: b"BZh",
        name: "this is bzip2 data, not BLIF",
        hint: "bzip2 -dc FILE | rambo opt /dev/stdin OUT JOURNAL",
    },
    Format {
        begin: b"PK\x03\x04",
        name: "this is a zip archive, not BLIF",
        hint: "unpack it first",
    },
    Format {
        begin: b"\xff\xfe",
        name: "this is text in UTF-16, not BLIF",
        hint: "iconv -f UTF-16 -t ASCII FILE",
    },
    Format {
        begin: b"\xfe\xff",
        name: "this is text in UTF-16, not BLIF",
        hint: "iconv -f UTF-16 -t ASCII FILE",
    },
    Format {
        begin: b"\xef\xbb\xbf",
        name: "a UTF-8 byte-order mark (bytes ef bb bf) stands before the text",
        hint: "tail -c +4 FILE leaves it out",
    },
    Format {
        begin: b"\x7fELF",
        name: "this is a program (ELF), not BLIF",
        hint: "name the netlist instead",
    },
    Format {
        begin: b"aig ",
        name: "this is a netlist in AIGER, not BLIF",
        hint: "convert it: abc -c 'read_aiger FILE; write_blif NEW.blif'",
    },
    Format {
        begin: b"aag ",
        name: "this is a netlist in AIGER, not BLIF",
        hint: "convert it: aigtoaig FILE NEW.aig, then abc -c 'read_aiger NEW.aig; write_blif NEW.blif'",
    },
    Format {
        begin: b".i ",
        name: "this is a PLA, not BLIF",
        hint: "convert it: abc -c 'read_pla FILE; write_blif NEW.blif'",
    },
    Format {
        begin: b"INPUT(",
        name: "this is a netlist in the bench format, not BLIF",
        hint: "convert it: abc -c 'read_bench FILE; write_blif NEW.blif'",
    },
    Format {
        begin: b"OUTPUT(",
        name: "this is a netlist in the bench format, not BLIF",
        hint: "convert it: abc -c 'read_bench FILE; write_blif NEW.blif'",
    },
    Format {
        begin: b"module",
        name: "this is Verilog, not BLIF",
        hint: "yosys -p 'read_verilog FILE; synth -flatten; write_blif NEW.blif'; see docs/flows.md",
    },
    Format {
        begin: b"`",
        name: "this is Verilog, not BLIF",
        hint: "yosys -p 'read_verilog FILE; synth -flatten; write_blif NEW.blif'; see docs/flows.md",
    },
    Format {
        begin: b"//",
        name: "this is Verilog, not BLIF",
        hint: "yosys -p 'read_verilog FILE; synth -flatten; write_blif NEW.blif'; see docs/flows.md",
    },
    Format {
        begin: b"/*",
        name: "this is Verilog, not BLIF",
        hint: "yosys -p 'read_verilog FILE; synth -flatten; write_blif NEW.blif'; see docs/flows.md",
    },
    Format {
        begin: b"rambo 1 ",
        name: "this is a journal of rambo, not BLIF",
        hint: JOURNAL_HINT,
    },
    Format {
        begin: JOURNAL_OF_BYTES,
        name: "this is a journal of rambo, not BLIF",
        hint: JOURNAL_HINT,
    },
    Format {
        begin: b"rambo-equal ",
        name: "this is a proof of rambo, not BLIF",
        hint: "A and B are the first names of judge, and PROOF is the third",
    },
    Format {
        begin: b"(edif",
        name: "this is EDIF, not BLIF",
        hint: "write the netlist as BLIF; see docs/flows.md",
    },
];

/// The format of a text that begins so, where it is one of these.
pub(crate) fn format_of(text: &[u8]) -> Option<Format> {
    for format in &FORMATS {
        if text.starts_with(format.begin) {
            return Some(*format);
        }
    }
    None
}

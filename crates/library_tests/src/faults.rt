// Where texts stop being traces of a copy, found by hand.

use crate::modules::module;
use netlist::Module;
use std::alloc::Global;
use std::test::Fail;
use vcd_trace::{VcdError, replay};

const COPY: &str =
    "module m(input clk, input rst, input [7:0] din, output valid, output [7:0] dout);
  assign valid = ~rst;
  assign dout = din;
endmodule
";

const HEAD: &str = "$timescale 1 ns $end
$scope module m $end
$var wire 1 ! rst $end
$var wire 8 \" din $end
$var wire 1 # valid $end
$var wire 8 $ dout $end
$upscope $end
$enddefinitions $end
";

const RESET: &str = "#0\n1!\nb0 \"\n0#\nb0 $\n";

// The line of a text's fault, or 0 where it is a trace.
fn line(alloc: Global, module: &Module, text: &str) -> Result<u64, Fail> {
    match replay(alloc, module, text.as_bytes()) {
        Ok(_) => Ok(0),
        Err(VcdError::Fault { line }) => Ok(line),
        Err(VcdError::OutOfMemory) => Err(Fail::new("no memory")),
    }
}

// The lines of the faults of texts that go on after this one, each up to an `@`.
fn lines(alloc: Global, module: &Module, front: &str, rests: &str) -> Result<String, Fail> {
    let mut lines = String::new(alloc);
    for rest in rests.split('@') {
        let text = format!(in alloc; "{front}{rest}")?;
        let line = line(alloc, module, &text)?;
        write!(lines, " {line}")?;
    }
    Ok(lines)
}

// In the header: no line, another time scale, another scope, another identifier; no time. At time 0: another time, no LF, no clock, a variable left out, too great a value, a leading zero. Behind it: nothing changed, out of order, no bit, a time left out, no last time, a last time with no LF, an empty line; and a trace.
#[test]
fn first_wrong_lines(rt: HostRuntime) -> Result<(), Fail> {
    let alloc = rt.alloc();
    let module = module(alloc, COPY)?;
    let begun = format!(in alloc; "{HEAD}{RESET}")?;
    for (front, rests, wanted) in [
        (
            "",
            "@$timescale 1 ps $end\n@$timescale 1 ns $end\n$scope module dk $end\n@$timescale 1 ns $end\n$scope module m $end\n$var wire 1 \" rst $end\n",
            " 1 1 2 3",
        ),
        (
            HEAD,
            "@#1\n@#0@#0\n@#0\n1!\n0#\n@#0\n1!\nb100000000 \"\n@#0\n1!\nb00 \"\n",
            " 9 9 9 10 11 11 11",
        ),
        (
            begun.as_str(),
            "#1\n0!\nb0 \"\n#2\n@#1\nb1 \"\n0!\n#2\n@#1\n2!\n#2\n@#1\n#3\n@#1\n0!\n@#1@#1\n#2\n\n@#1\n#2\n",
            " 16 16 15 15 16 14 16 0",
        ),
    ] {
        assert_eq!(rt; lines(alloc, &module, front, rests)?.as_str(), wanted);
    }
    Ok(())
}

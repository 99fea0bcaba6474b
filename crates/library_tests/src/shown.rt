// What traces show, read from texts written by hand.

use crate::modules::module;
use std::alloc::Global;
use std::test::Fail;
use vcd_trace::replay;

// A register that takes `din` where `en` is 1, with `valid` there.
const GATED: &str =
    "module m(input clk, input rst, input en, input [7:0] din, output valid, output [7:0] dout);
  wire [7:0] n0;
  reg [7:0] r0;
  assign n0 = en ? din : r0;
  assign valid = en;
  assign dout = r0;
  always @(posedge clk) begin
    r0 <= n0;
  end
endmodule
";

const GATED_TRACE: &str = "$timescale 1 ns $end
$scope module m $end
$var wire 1 ! rst $end
$var wire 1 \" en $end
$var wire 8 # din $end
$var wire 1 $ valid $end
$var wire 8 % dout $end
$var wire 8 & n0 $end
$var reg 8 ' r0 $end
$upscope $end
$enddefinitions $end
#0
1!
1\"
b0 #
1$
b0 %
b0 &
b0 '
#1
0!
b111 #
b111 &
#2
b1001 #
b111 %
b1001 &
b111 '
#3
b0 #
b1001 %
b0 &
b1001 '
#4
b0 %
b0 '
#5
#6
";

fn push_row(text: &mut String, row: &[u64]) -> Result<(), Fail> {
    for value in row {
        write!(text, "{value} ")?;
    }
    Ok(())
}

// The values at each clock, with a `/` after those of one clock.
fn told(alloc: Global, rows: &[Vec<u64>]) -> Result<String, Fail> {
    let mut text = String::new(alloc);
    for row in rows {
        push_row(&mut text, row)?;
        text.push('/')?;
    }
    Ok(text)
}

#[test]
fn enable_and_register(rt: HostRuntime) -> Result<(), Fail> {
    let alloc = rt.alloc();
    let module = module(alloc, GATED)?;
    let Ok(rows) = replay(alloc, &module, GATED_TRACE.as_bytes()) else {
        return Err(Fail::new("no trace"));
    };
    let wanted =
        "1 1 0 1 0 0 0 /0 1 7 1 0 7 0 /0 1 9 1 7 9 7 /0 1 0 1 9 0 9 /0 1 0 1 0 0 0 /0 1 0 1 0 0 0 /";
    assert_eq!(rt; told(alloc, &rows)?.as_str(), wanted);
    Ok(())
}

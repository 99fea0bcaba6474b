// Worked layouts: the texts of small modules, written by hand.

ghost use Rattle.std.specs.Prelude.{◌≡◌, codes};
ghost use Rattle.verilog_layout.specs.Layout.{layout};
ghost use Rattle.verilog_layout.specs.Worked.{copy_module, table_module, held_module, ports_module, rights_module, constants_module};

/// A law: the whole texts of small modules. The same texts are in examples/verilog.
pub fn worked_layouts()
    ensures copy { layout copy_module
        ≡ codes "module dk(input clk, input rst, input [7:0] din, output valid, output [7:0] dout);\n  assign valid = ~rst;\n  assign dout = din;\nendmodule\n" }
    ensures table { layout table_module
        ≡ codes "module m(input clk, input rst, input [1:0] din, output valid, output [7:0] dout);\n  reg [7:0] m0 [0:2];\n  assign valid = ~rst;\n  assign dout = m0[din];\n  always @(posedge clk) begin\n    m0[2'd0] <= 8'd5;\n  end\nendmodule\n" }
    ensures held { layout held_module
        ≡ codes "module dk(input clk, input rst, input en, input [7:0] din, output valid, output [7:0] dout);\n  wire [7:0] n0;\n  reg [7:0] r0;\n  assign n0 = en ? din : r0;\n  assign valid = ~rst;\n  assign dout = r0;\n  always @(posedge clk) begin\n    r0 <= n0;\n  end\nendmodule\n" }
    ensures ports { layout ports_module
        ≡ codes "module dk(input clk, input rst, input din, input [1:0] din1, input [2:0] din2, input [3:0] din3, input [4:0] din4, input [5:0] din5, input [6:0] din6, input [15:0] din7, output valid, output dout, output valid1, output [1:0] dout1, output valid2, output [2:0] dout2, output valid3, output [3:0] dout3, output valid4, output [4:0] dout4, output valid5, output [5:0] dout5, output valid6, output [6:0] dout6, output valid7, output [15:0] dout7);\n  assign valid = ~rst;\n  assign dout = din;\n  assign valid1 = ~rst;\n  assign dout1 = din1;\n  assign valid2 = ~rst;\n  assign dout2 = din2;\n  assign valid3 = ~rst;\n  assign dout3 = din3;\n  assign valid4 = ~rst;\n  assign dout4 = din4;\n  assign valid5 = ~rst;\n  assign dout5 = din5;\n  assign valid6 = ~rst;\n  assign dout6 = din6;\n  assign valid7 = ~rst;\n  assign dout7 = din7;\nendmodule\n" }
    ensures rights { layout rights_module
        ≡ codes "module dk(input clk, input rst, input [7:0] din, output valid, output [7:0] dout);\n  wire [7:0] n0;\n  wire [7:0] n1;\n  wire [7:0] n2;\n  wire [7:0] n3;\n  wire [7:0] n4;\n  wire [7:0] n5;\n  wire n6;\n  wire n7;\n  wire [7:0] n8;\n  wire [7:0] n9;\n  wire [7:0] n10;\n  wire [7:0] n11;\n  wire [15:0] n12;\n  wire [23:0] n13;\n  wire n14;\n  wire [7:0] n15;\n  wire [7:0] n16;\n  reg [7:0] m0 [0:1];\n  assign n0 = din;\n  assign n1 = ~din;\n  assign n2 = n0 + n1;\n  assign n3 = n2 - din;\n  assign n4 = n3 * n1;\n  assign n5 = n4 / 8'd3;\n  assign n6 = n4 < n5;\n  assign n7 = n4 == n5;\n  assign n8 = n0 & n1;\n  assign n9 = n8 | n5;\n  assign n10 = n9 ^ n4;\n  assign n11 = n6 ? n10 : n8;\n  assign n12 = {n11, n10};\n  assign n13 = {3{n11}};\n  assign n14 = n12[15];\n  assign n15 = n13[16:9];\n  assign n16 = m0[n14];\n  assign valid = n7;\n  assign dout = n16;\n  always @(posedge clk) begin\n    m0[n6] <= n15;\n  end\nendmodule\n" }
    ensures constants { layout constants_module
        ≡ codes "module dk(input clk, input rst, input din, output valid, output dout);\n  wire [63:0] n0;\n  assign n0 = 64'd18446744073709551615;\n  assign valid = 1'd1;\n  assign dout = n0 == 64'd9223372036854775808;\nendmodule\n" }
{}

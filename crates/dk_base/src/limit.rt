// The numbers of the limits.

ghost use Rattle.std.specs.Prelude.{◌≡◌};
ghost use Rattle.dk_base.specs.declared.TheConstants.{MAX_SOURCE_BYTES, MAX_VERILOG_BYTES, MAX_SIDE, MAX_DEFINITIONS, MAX_OFFSET, MAX_OPEN_BRACKETS, MAX_SOURCE_DEPTH, MAX_INLINED_DEPTH, MAX_NODES, MAX_LIVE_READS, MAX_COUNTED_READS, MAX_BUFFER_BITS, MAX_LATENCY, MAX_NAME_BYTES, MAX_HEADER_BYTES, MAX_MAXVAL, MAX_CLOCKS, MAX_MADE, MAX_WIDTH, MAX_PORT_WIDTH, MAX_SHIFT, MAX_INPUTS, MAX_OUTPUTS, MAX_KEPT_IMAGES, MAX_FILE_IMAGES, MAX_PGM_BYTES, MAX_AGE, MAX_HOLD, MAX_REPORT_BYTES};

/// A law: the number of each limit. net_names and wiring do not depend on this crate and have five of these numbers under names of their own; netlist shows that they are the same (`bounds_are_limits`).
pub fn limits_law()
    ensures source_bytes { MAX_SOURCE_BYTES ≡ 1048576 }
    ensures verilog_bytes { MAX_VERILOG_BYTES ≡ 268435456 }
    ensures side { MAX_SIDE ≡ 4096 }
    ensures definitions { MAX_DEFINITIONS ≡ 256 }
    ensures offset { MAX_OFFSET ≡ 64 }
    ensures open_brackets { MAX_OPEN_BRACKETS ≡ 128 }
    ensures source_depth { MAX_SOURCE_DEPTH ≡ 512 }
    ensures inlined_depth { MAX_INLINED_DEPTH ≡ 1024 }
    ensures nodes { MAX_NODES ≡ 65536 }
    ensures live_reads { MAX_LIVE_READS ≡ 4096 }
    ensures counted_reads { MAX_COUNTED_READS ≡ 65536 }
    ensures buffer_bits { MAX_BUFFER_BITS ≡ 67108864 }
    ensures latency { MAX_LATENCY ≡ 67108864 }
    ensures name_bytes { MAX_NAME_BYTES ≡ 64 }
    ensures header_bytes { MAX_HEADER_BYTES ≡ 65536 }
    ensures maxval { MAX_MAXVAL ≡ 65535 }
    ensures clocks { MAX_CLOCKS ≡ 100000000 }
    ensures made { MAX_MADE ≡ 4194303 }
    ensures width { MAX_WIDTH ≡ 64 }
    ensures port_width { MAX_PORT_WIDTH ≡ 16 }
    ensures shift { MAX_SHIFT ≡ 63 }
    ensures inputs { MAX_INPUTS ≡ 8 }
    ensures outputs { MAX_OUTPUTS ≡ 8 }
    ensures kept_images { MAX_KEPT_IMAGES ≡ 264 }
    ensures file_images { MAX_FILE_IMAGES ≡ 65536 }
    ensures pgm_bytes { MAX_PGM_BYTES ≡ 268435456 }
    ensures age { MAX_AGE ≡ 64 }
    ensures hold { MAX_HOLD ≡ 1000000 }
    ensures report_bytes { MAX_REPORT_BYTES ≡ 4194304 }
{}

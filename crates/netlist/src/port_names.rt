// Names of ports, by their places.

ghost use Rattle.std.specs.Prelude.{◌≡◌};
ghost use Rattle.wiring.specs.declared.TheConstants.{MOST_PORTS};
ghost use Rattle.netlist.specs.Names.{name_at, din_names, all_inputs, all_outputs};

fn din_name(place: usize) -> &'static [u8]
    ensures { result.now ≡ name_at (din_names 0 MOST_PORTS) place }
{
    match place {
        0 => b"din",
        1 => b"din1",
        2 => b"din2",
        3 => b"din3",
        4 => b"din4",
        5 => b"din5",
        6 => b"din6",
        7 => b"din7",
        _ => b"",
    }
}

/// The name of the input of this number, `rst` being input 0.
pub fn input_name(enable: bool, place: usize) -> &'static [u8]
    ensures { result.now ≡ name_at (all_inputs enable) place }
{
    match place {
        0 => b"rst",
        1 if enable => b"en",
        _ if enable => din_name(place - 2),
        _ => din_name(place - 1),
    }
}

/// The name of the output of this number, `valid` being output 0.
pub fn output_name(place: usize) -> &'static [u8]
    ensures { result.now ≡ name_at all_outputs place }
{
    match place {
        0 => b"valid",
        1 => b"dout",
        2 => b"valid1",
        3 => b"dout1",
        4 => b"valid2",
        5 => b"dout2",
        6 => b"valid3",
        7 => b"dout3",
        8 => b"valid4",
        9 => b"dout4",
        10 => b"valid5",
        11 => b"dout5",
        12 => b"valid6",
        13 => b"dout6",
        14 => b"valid7",
        15 => b"dout7",
        _ => b"",
    }
}

//! Headers of PGM images and their faults, worked out by hand, by the definitions of pgm_codec.

ghost use Rattle.std.specs.Prelude.{◌++◌, [], ◌∷◌, codes, replicate};
ghost use Rattle.pgm_codec.specs.declared.header.HeaderFault.TheVariants.{Magic, Number, Range};
ghost use Rattle.pgm_codec.specs.Answers.{Reads, Refuses};

/// A law: what some bytes begin with, or the fault that they have.
pub fn worked_headers()
    ensures plain { Reads (codes "P5\n3 1\n255\n") (record { width = 3; height = 1; maxval = 255; length = 11 }) }
    ensures comments { Reads (codes "P5\n# c\n3 #x\n#y\n1\n255\n") (record { width = 3; height = 1; maxval = 255; length = 21 }) }
    ensures raster_behind { Reads (codes "P5 1 1 65535\n" ++ 1 ∷ 2 ∷ []) (record { width = 1; height = 1; maxval = 65535; length = 13 }) }
    ensures tabs_and_returns { Reads (codes "P5" ++ 9 ∷ codes "007" ++ 13 ∷ codes "0\n001 ") (record { width = 7; height = 0; maxval = 1; length = 13 }) }
    ensures one_white_byte { Reads (codes "P5 1 1 255" ++ 13 ∷ 10 ∷ []) (record { width = 1; height = 1; maxval = 255; length = 11 }) }
    ensures great_sides { Reads (codes "P5 4294967295 4294967296 1\n") (record { width = 4294967295; height = 4294967295; maxval = 1; length = 27 }) }
    ensures hundred_digits { Reads (codes "P5 " ++ replicate 100 57 ++ codes " 1 1\n") (record { width = 4294967295; height = 1; maxval = 1; length = 108 }) }
    ensures nothing { Refuses [] Magic }
    ensures letter { Refuses (codes "P") Magic }
    ensures other_magic { Refuses (codes "P6\n3 1\n255\n") Magic }
    ensures magic_alone { Refuses (codes "P5") (Number 2) }
    ensures no_gap { Refuses (codes "P5#c\n3 1 1\n") (Number 2) }
    ensures no_digit { Refuses (codes "P5 3 x") (Number 5) }
    ensures comment_behind_maxval { Refuses (codes "P5\n3 1\n255#c\n") (Number 10) }
    ensures open_end { Refuses (codes "P5 3 1 0") (Number 8) }
    ensures form_feed { Refuses (codes "P5" ++ 12 ∷ codes "3 1 1\n") (Number 2) }
    ensures zero { Refuses (codes "P5 3 1 0\n") (Range 7) }
    ensures too_great { Refuses (codes "P5 3 1  065536\n") (Range 8) }
{}

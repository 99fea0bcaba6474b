// Worked numbers: what is made of them, worked out apart from this crate.

ghost use Rattle.std.specs.Prelude.{◌≡◌, ◌++◌, ◌∷◌, [], codes};
ghost use Rattle.made_program.specs.Programs.{program_of};
ghost use Rattle.made_program.specs.Images.{image_of};
ghost use Rattle.made_program.specs.Summary.{summary};

/// A law: the program, the image file and the line of number 0, a frame of one pixel.
pub fn made_of_zero()
    ensures program { program_of 0
        ≡ codes "size 1 1\ninput a : u8\nlet i1 = im(x,y) select(a(x,y)<a(x-2,y+1),a(x,y),(a(x,y)*3+a(x-2,y+1))>>2) as u8 end\noutput i1\n" }
    ensures image { image_of 0 ≡ codes "P5\n1 1\n255\n" ++ 47 ∷ [] }
    ensures line { summary 0 1 1 0 0 35 ≡ codes "make 0: size 1 1 images 1 reads 1 bits 0 latency 0 sum 35\n" }
{}

/// A law: the same of number 1, a frame of two pixels in a row.
pub fn made_of_one()
    ensures program { program_of 1 ≡ codes "size 2 1\ninput a : u8\nlet i1 = im(x,y) max(a(x-2,y+2),a(x-2,y)) end\noutput i1\n" }
    ensures image { image_of 1 ≡ codes "P5\n2 1\n255\n" ++ 123 ∷ 228 ∷ [] }
    ensures line { summary 1 1 0 0 0 0 ≡ codes "make 1: size 2 1 images 1 reads 0 bits 0 latency 0 sum 0\n" }
{}

/// A law: the same of number 3, a frame of four pixels in a row.
pub fn made_of_three()
    ensures program { program_of 3
        ≡ codes "size 4 1\ninput a : u8\nlet i1 = im(x,y) select(a(x-2,y+2)<a(x-1,y),a(x-2,y+2),(a(x-2,y+2)*3+a(x-1,y))>>2) as u8 end\noutput i1\n" }
    ensures image { image_of 3 ≡ codes "P5\n4 1\n255\n" ++ 19 ∷ 242 ∷ 29 ∷ 174 ∷ [] }
    ensures line { summary 3 1 1 8 0 0 ≡ codes "make 3: size 4 1 images 1 reads 1 bits 8 latency 0 sum 0\n" }
{}

/// A law: the program and the image file of a number with six definitions, which have each kind, and one of which is inline.
pub fn made_of_six_definitions()
    ensures program { program_of 327686
        ≡ codes "size 7 1\ninput a : u8\nlet i1 = im(x,y) abs(a(x+2,y+2)-a(x-2,y+2)) as u8 end\nlet i2 = im(x,y) select(i1(x-2,y-2)<a(x+2,y-1),i1(x-2,y-2),(i1(x-2,y-2)*3+a(x+2,y-1))>>2) as u8 end\nlet i3 = im(x,y) max(i2(x,y+2),i2(x-1,y-1)) end\nlet i4 = im(x,y) max(i3(x+2,y-2),i2(x,y-2)) end\ninline let i5 = im(x,y) max(i4(x-2,y),i4(x-2,y+1)) end\nlet i6 = im(x,y) ((i5(x+2,y-2)+a(x,y-1))/2) as u8 end\noutput i6\n" }
    ensures image { image_of 327686 ≡ codes "P5\n7 1\n255\n" ++ 135 ∷ 11 ∷ 255 ∷ 78 ∷ 169 ∷ 42 ∷ 116 ∷ [] }
{}

//! The bytes of an output file.

ghost use Rattle.std.specs.Prelude.{◌≡◌, ◌<◌, ◌≤◌, ◌+◌, ◌^◌, ◌++◌, ◌∷◌, [], length, take, decimal};
ghost use Rattle.dk_base.specs.declared.TheConstants.{MAX_SIDE};
ghost use Rattle.pgm_codec.specs.Images.{header_of, sample_bytes};

use itoa::Buffer;

// Puts a piece at this place, and answers the place after it.
fn put(out: &mut [u8], at: usize, piece: &[u8]) -> usize
    requires { at + length piece.now ≤ length out.old }
    ensures end { result ≡ at + length piece.now }
    ensures put { take result out.new ≡ take at out.old ++ piece.now }
{
    let end = at + piece.len();
    out[at..end].copy_from_slice(piece);
    end
}

// Puts a number in decimal and a byte after it.
fn put_number(out: &mut [u8], at: usize, number: u32, last: u8) -> usize
    requires { at + length (decimal number) + 1 ≤ length out.old }
    ensures end { result ≡ at + length (decimal number) + 1 }
    ensures put { take result out.new ≡ take at out.old ++ (decimal number ++ last ∷ []) }
{
    let mut buffer = Buffer::new();
    let end = put(out, at, buffer.format(number).as_bytes());
    put(out, end, &[last])
}

/// Writes the header of an image, and answers how many bytes it has.
pub fn write_header(width: u32, height: u32, maxval: u16, out: &mut [u8; 19]) -> usize
    requires width { (0 < width) × (width ≤ MAX_SIDE) }
    requires height { (0 < height) × (height ≤ MAX_SIDE) }
    requires maxval { 0 < maxval }
    ensures header { take result out.new ≡ header_of width height maxval }
    ensures length { result ≡ length (header_of width height maxval) }
{
    let at = put(out, 0, b"P5\n");
    let at = put_number(out, at, width, b' ');
    let at = put_number(out, at, height, b'\n');
    put_number(out, at, u32::from(maxval), b'\n')
}

/// Writes one sample of an image with this maxval, and answers how many bytes it has.
pub fn put_sample(value: u16, maxval: u16, out: &mut [u8; 2]) -> usize
    requires maxval { 0 < maxval }
    requires value { value ≤ maxval }
    ensures sample { take result out.new ≡ sample_bytes maxval value }
    ensures length { result ≡ length (sample_bytes maxval value) }
{
    if maxval < 256 {
        out[0] = value as u8;
        1
    } else {
        out[0] = (value / 256) as u8;
        out[1] = (value % 256) as u8;
        2
    }
}

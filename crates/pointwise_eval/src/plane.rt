// The values of an image at all pixels.

ghost use Rattle.std.specs.Prelude.{IsTrue};
ghost use Rattle.pointwise_eval.specs.Planes.{IsByRows};

// The values of an image in raster order: the samples of an input where they are; else, where all values that occur while it is computed are of 64 bits, elements of as few bytes as the image's type needs; else values of 128 bits. Gone are those of an image that is not needed, or not any more.
#[derive(Drop)]
pub enum Plane<'a> {
    Input8(&'a [u8]),
    Input16(&'a [u16]),
    Unsigned8(Vec<u8>),
    Unsigned16(Vec<u16>),
    Unsigned32(Vec<u32>),
    Signed8(Vec<i8>),
    Signed16(Vec<i16>),
    Signed32(Vec<i32>),
    Signed64(Vec<i64>),
    Wide(Vec<i128>),
    Gone,
}

impl Plane<'_> {
    // Whether it can be read by rows.
    pub fn is_narrow(&self) -> bool
        ensures { IsTrue result → IsByRows self.now }
    {
        match self {
            Plane::Input8(_) => true,
            Plane::Input16(_) => true,
            Plane::Unsigned8(_) => true,
            Plane::Unsigned16(_) => true,
            Plane::Unsigned32(_) => true,
            Plane::Signed8(_) => true,
            Plane::Signed16(_) => true,
            Plane::Signed32(_) => true,
            Plane::Signed64(_) => true,
            Plane::Wide(_) => false,
            Plane::Gone => false,
        }
    }
}

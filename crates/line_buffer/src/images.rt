// The images that buffers are for.

use wiring::Net;

/// An image whose pixels a buffer keeps: its net, the net's width in bits, which is that of the buffer's words, and the ages at which it is read.
#[derive(Clone, Copy)]
pub struct BufferedImage<'a> {
    pub net: Net,
    pub width: u8,
    pub ages: &'a [u64],
}

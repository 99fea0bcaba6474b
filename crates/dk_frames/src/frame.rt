// Frames of samples.

use crate::samples::Samples;

/// The picture of an input or an output: its width and height in pixels, and a sample for each pixel.
#[derive(Debug, Drop)]
pub struct Frame {
    pub width: u32,
    pub height: u32,
    pub samples: Samples,
}

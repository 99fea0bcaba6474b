// The frames of a round.

use dk_frames::Frame;

/// One frame for each input, in order.
#[derive(Debug, Drop)]
pub struct Round {
    pub frames: Vec<Frame>,
}

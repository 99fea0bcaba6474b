//! What is known of a header after some of its bytes.

ghost use Rattle.std.specs.Prelude.{◌≡◌, ◌<◌};
ghost use Rattle.dk_base.specs.declared.TheConstants.{MAX_HEADER_BYTES};
ghost use Rattle.pgm_codec.specs.declared.scan.Scan.TheVariants.{More};

use crate::header::{Header, HeaderFault};
use crate::reading::Reading;

/// What is known of a header after some of its bytes.
#[derive(Clone, Copy, Debug, PartialEq, Eq)]
pub enum Scan {
    /// The bytes begin a header and hold none whole.
    More,
    /// The bytes begin with this header.
    Done(Header),
    /// The bytes do not begin with a header, whatever comes.
    Fault(HeaderFault),
}

/// Takes a header byte by byte.
#[derive(Clone, Copy, Debug)]
pub struct HeaderScan {
    pub(crate) reading: Reading,
    pub(crate) answer: Scan,
    ghost short: { answer ≡ More → reading.length < MAX_HEADER_BYTES },
}

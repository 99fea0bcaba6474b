// Samples in one byte each, or in two.

ghost use Rattle.std.specs.Prelude.{◌≡◌, ◌<◌, length, slice_index};
ghost use Rattle.dk_frames.specs.Slices.{samples_of};

use std::marker::Model;

// The memory that samples are held in.
#[derive(Debug, Drop)]
enum Store {
    U8(Vec<u8>),
    U16(Vec<u16>),
}

/// Samples in raster order, in the memory that holds them.
#[derive(Clone, Copy, Debug)]
pub enum SampleSlice<'a> {
    /// Samples of 8 bits.
    U8(&'a [u8]),
    /// Samples of 16 bits.
    U16(&'a [u16]),
}

impl SampleSlice<'_> {
    /// The number of samples.
    pub fn len(self) -> usize
        ensures { result ≡ length (samples_of self.entry) }
    {
        match self {
            SampleSlice::U8(samples) => samples.len(),
            SampleSlice::U16(samples) => samples.len(),
        }
    }
}

/// Samples in raster order: rows from top to bottom, each from left to right. They are held in one byte each, or in two.
#[derive(Debug, Drop)]
pub struct Samples {
    store: Store,
}

impl Model for Samples {
    ghost use Rattle.std.specs.Prelude.{List, ℕ};
    ghost use Rattle.dk_frames.specs.Store.{samples_in};

    ghost Value = { List ℕ };

    ghost view = { λ s. samples_in s.store };
}

impl Samples {
    /// These samples, in two bytes each. It takes no memory.
    pub fn new(samples: Vec<u16>) -> Samples
        ensures { result ≡ samples.items }
    {
        Samples {
            store: Store::U16(samples),
        }
    }

    /// These samples, in one byte each. It takes no memory.
    pub fn from_bytes(samples: Vec<u8>) -> Samples
        ensures { result ≡ samples.items }
    {
        Samples {
            store: Store::U8(samples),
        }
    }

    /// The samples, where they are.
    pub fn as_slice(&self) -> SampleSlice<'_>
        ensures { samples_of result ≡ self.now }
    {
        match &self.store {
            Store::U8(samples) => SampleSlice::U8(samples),
            Store::U16(samples) => SampleSlice::U16(samples),
        }
    }

    /// The sample at this place.
    pub fn sample(&self, place: usize) -> u16
        requires { place < length self.now }
        ensures { result ≡ slice_index self.now place }
    {
        match &self.store {
            Store::U8(samples) => u16::from(samples[place]),
            Store::U16(samples) => samples[place],
        }
    }
}

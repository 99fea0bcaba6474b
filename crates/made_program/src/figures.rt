// the line that reports a number.

ghost use Rattle.std.specs.Prelude.{◌≡◌, ◌++◌, OnOk, IfOk, codes};
ghost use Rattle.made_program.specs.Programs.{width_of, height_of};
ghost use Rattle.made_program.specs.Summary.{figure, summary};

use crate::number::{frame_height, frame_width};
use crate::pieces::push_number;
use dk_base::OutOfMemory;
use std::alloc::Global;

/// What is reported of a program that was compiled and clocked.
#[derive(Clone, Copy, Debug, PartialEq, Eq)]
pub struct Figures {
    /// The number of kept images without the input.
    pub images: u64,
    /// The number of live reads.
    pub reads: u64,
    /// The buffer bits.
    pub bits: u64,
    /// The latency, in clocks.
    pub latency: u64,
    /// The sum of the output's samples.
    pub sample_sum: u64,
}

// Adds a word with its blanks, and a number.
fn push_figure(to: &mut Vec<u8>, word: &[u8], number: u64) -> Result<(), OutOfMemory>
    ensures { OnOk result (to.new.items ≡ to.old.items ++ figure word.now number) }
{
    to.extend_from_slice(word)?;
    push_number(to, number)?;
    Ok(())
}

// Adds the number and the size of the frame.
fn push_size(to: &mut Vec<u8>, n: u32) -> Result<(), OutOfMemory>
    ensures { OnOk result (to.new.items
        ≡ to.old.items ++ (figure (codes "make ") n ++ (figure (codes ": size ") (width_of n) ++ figure (codes " ") (height_of n)))) }
{
    push_figure(to, b"make ", u64::from(n))?;
    push_figure(to, b": size ", u64::from(frame_width(n)))?;
    push_figure(to, b" ", u64::from(frame_height(n)))?;
    Ok(())
}

// Adds the figures.
fn push_figures(to: &mut Vec<u8>, figures: Figures) -> Result<(), OutOfMemory>
    ensures { OnOk result (to.new.items ≡ to.old.items ++ (figure (codes " images ") figures.images ++ (figure (codes " reads ") figures.reads
        ++ (figure (codes " bits ") figures.bits ++ (figure (codes " latency ") figures.latency ++ figure (codes " sum ") figures.sample_sum))))) }
{
    push_figure(to, b" images ", figures.images)?;
    push_figure(to, b" reads ", figures.reads)?;
    push_figure(to, b" bits ", figures.bits)?;
    push_figure(to, b" latency ", figures.latency)?;
    push_figure(to, b" sum ", figures.sample_sum)?;
    Ok(())
}

/// the line that reports number n with these figures, and its LF. The only error is out of memory.
pub fn summary(alloc: Global, n: u32, figures: Figures) -> Result<Vec<u8>, OutOfMemory>
    ensures { IfOk result (λ line. line.items ≡ summary n figures.images figures.reads figures.bits figures.latency figures.sample_sum) }
{
    let mut line = Vec::new(alloc);
    push_size(&mut line, n)?;
    push_figures(&mut line, figures)?;
    line.extend_from_slice(b"\n")?;
    Ok(line)
}

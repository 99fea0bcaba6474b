// What a number denotes.

ghost use Rattle.std.specs.Prelude.{◌≡◌, ◌<◌, ◌≤◌};
ghost use Rattle.made_program.specs.Programs.{width_of, height_of, count_of, seed_of};

// The width of the frame, in pixels.
pub(crate) fn frame_width(n: u32) -> u32
    ensures is { result ≡ width_of n }
    ensures some { 0 < result }
    ensures most { result ≤ 256 }
{
    1 + n % 256
}

// The height of the frame, in pixels.
pub(crate) fn frame_height(n: u32) -> u32
    ensures is { result ≡ height_of n }
    ensures some { 0 < result }
    ensures most { result ≤ 256 }
{
    1 + n / 256 % 256
}

// The number of definitions.
pub(crate) fn definition_count(n: u32) -> u32
    ensures { result ≡ count_of n }
{
    1 + n / 65_536 % 64
}

// The state in which the first number is drawn.
pub(crate) fn seed(n: u32) -> u16
    ensures { result ≡ seed_of n }
{
    (n % 65_536) as u16
}

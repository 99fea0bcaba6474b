// The numbers that follow from the image lines and the latency lines.

ghost use Rattle.std.specs.Prelude.{◌≡◌, ◌≤◌, ◌^◌, ◌*◌, length};
ghost use Rattle.dk_base.specs.declared.TheConstants.{MAX_KEPT_IMAGES};
ghost use Rattle.plan_check.specs.Holding.{greatest};
ghost use Rattle.plan_check.specs.Stages.{IsCount};
ghost use Rattle.plan_check.specs.Sums.{bits_of_lines};

use report_text::ImageLine;

// The greatest of these numbers, 0 of none.
pub(crate) fn greatest(numbers: &[u64]) -> u64
    ensures { result ≡ greatest numbers.now }
{
    let mut most: u64 = 0;
    for number in numbers {
        most = most.max(*number);
    }
    most
}

// An image's width times its depth.
fn bits_of(image: &ImageLine) -> u128
    ensures { IsCount (2 ^ 72) (image.now.width * image.now.depth) result }
{
    u128::from(image.width) * u128::from(image.depth)
}

// The sum of width times printed depth.
pub(crate) fn bits(images: &[ImageLine]) -> u128
    requires { length images.now ≤ MAX_KEPT_IMAGES }
    ensures { result ≡ bits_of_lines images.now }
{
    let mut total: u128 = 0;
    for image in images {
        total += bits_of(image);
    }
    total
}

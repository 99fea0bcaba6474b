// The reads of one image.

ghost use Rattle.std.specs.Prelude.{◌≡◌};
ghost use Rattle.dk_base.specs.Stencils.{AreInOrder};
ghost use Rattle.buffer_plan.specs.Plans.{reads_by};

use dk_base::LiveRead;

// The reads that an image makes, which are together.
pub fn reads_by(reads: &[LiveRead], f: u32) -> &[LiveRead]
    requires { AreInOrder reads.now }
    ensures { result.now ≡ reads_by f reads.now }
{
    let start = reads.partition_point(|r| r.f < f);
    let (_, rest) = reads.split_at(start);
    let count = rest.partition_point(|r| r.f <= f);
    let (own, _) = rest.split_at(count);
    own
}

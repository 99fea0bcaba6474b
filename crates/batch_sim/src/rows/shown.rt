// What the outputs show in the clocks of a batch.

ghost use Rattle.std.specs.Prelude.{◌≡◌, ◌+◌, ◌*◌, ◌<◌, ◌==◌, length, map};
ghost use Rattle.lane_rows.specs.Values.{row_values, values_of};
ghost use Rattle.batch_sim.specs.Shown.{shown_at, AreShownIn, CanShow, CanShowAll, ShowsOutput};

use crate::judge::given::row_at;
use cycle_sim::Out;
use lane_rows::{Lane, Row};

// An output at a clock.
fn out_at<V: Lane, D: Lane>(valid: &[V], dout: &[D], clock: usize) -> Out
    requires valid { clock < length valid.now }
    requires dout { clock < length dout.now }
    ensures { result ≡ shown_at (map V.value valid.now) (map D.value dout.now) clock }
{
    Out {
        valid: valid[clock].word() == 1,
        dout: dout[clock].word(),
    }
}

// One output, of this many, at each of this many clocks.
fn show_numbers<V: Lane, D: Lane>(
    valid: &[V],
    dout: &[D],
    outs: &mut [Out],
    output: usize,
    count: usize,
    clocks: usize,
)
    requires { CanShow valid.now dout.now outs.old output count clocks }
    ensures { ShowsOutput (map V.value valid.now) (map D.value dout.now) output count clocks
        outs.old outs.new }
{
    for t in 0..clocks {
        outs[t * count + output] = out_at(valid, dout, t);
    }
}

fn show_dout<V: Lane>(
    valid: &[V],
    dout: &Row,
    outs: &mut [Out],
    output: usize,
    count: usize,
    clocks: usize,
)
    requires { CanShow valid.now (row_values dout.now) outs.old output count clocks }
    ensures { ShowsOutput (map V.value valid.now) (row_values dout.now) output count clocks outs.old
        outs.new }
{
    match dout {
        Row::Narrow(dout) => show_numbers(valid, dout, outs, output, count, clocks),
        Row::Middle(dout) => show_numbers(valid, dout, outs, output, count, clocks),
        Row::Wide(dout) => show_numbers(valid, dout, outs, output, count, clocks),
    }
}

fn show_output(
    valid: &Row,
    dout: &Row,
    outs: &mut [Out],
    output: usize,
    count: usize,
    clocks: usize,
)
    requires { CanShow (row_values valid.now) (row_values dout.now) outs.old output count clocks }
    ensures { ShowsOutput (row_values valid.now) (row_values dout.now) output count clocks outs.old
        outs.new }
{
    match valid {
        Row::Narrow(valid) => show_dout(valid, dout, outs, output, count, clocks),
        Row::Middle(valid) => show_dout(valid, dout, outs, output, count, clocks),
        Row::Wide(valid) => show_dout(valid, dout, outs, output, count, clocks),
    }
}

// All outputs, whose slots begin with the first one, at each of this many clocks, this many a clock.
pub fn show_rows(rows: &[Row], first: usize, count: usize, outs: &mut [Out], clocks: usize)
    requires { CanShowAll rows.now first count clocks outs.old }
    ensures { AreShownIn (values_of rows.now) first count clocks outs.new }
{
    for output in 0..count {
        let valid = row_at(rows, first + 2 * output);
        let dout = row_at(rows, first + 2 * output + 1);
        show_output(valid, dout, outs, output, count, clocks);
    }
}

// Flow lines, and their order.

ghost use Rattle.std.specs.Prelude.{◌≡◌, ℕ, ℤ, Some, None, MatchOption, IsTrue};
ghost use Rattle.report_text.specs.declared.report.FlowLine.{FlowLine};
ghost use Rattle.report_text.specs.Reports.{kind, read_named, StandsBefore};
ghost use Rattle.report_text.specs.Reading.{image_flow_at, read_flow_at, flow_at, follows};
ghost use Rattle.report_text.specs.Steps.{behind_names};

use crate::field::{amount, find, offset_at, strip, word_at};
use crate::report::{FlowLine, ImageLine};
use dk_base::is_before;

// An image and a flow.
#[tactic(auto, unfolding(crate::specs::Reading::image_flow_at))]
fn image_flow(images: &[ImageLine], bytes: &[u8]) -> Option<(usize, u64)>
    ensures { MatchOption result ((make : ℕ → ℕ → FlowLine) → image_flow_at make images.now bytes.now ≡ None) (λ x. (make : ℕ → ℕ → FlowLine)
        → image_flow_at make images.now bytes.now ≡ Some (make x.0 x.1)) }
{
    let (name, rest) = word_at(bytes);
    let place = find(images, name)?;
    let flow = amount(rest)?;
    Some((place, flow))
}

// The images of a read, and the bytes after their names.
#[tactic(auto, unfolding(crate::specs::Reading::read_flow_at))]
fn places<'a>(images: &[ImageLine], bytes: &'a [u8]) -> Option<(usize, usize, &'a [u8])>
    ensures { MatchOption result ((make : ℕ → ℕ → ℤ → ℤ → ℕ → FlowLine) → read_flow_at make images.now bytes.now ≡ None) (λ x. (make : ℕ → ℕ → ℤ → ℤ → ℕ
        → FlowLine) → read_flow_at make images.now bytes.now ≡ behind_names (make x.0 x.1) x.2.now) }
{
    let (reader, behind) = word_at(bytes);
    let reader = find(images, reader)?;
    let after = strip(b" ", behind)?;
    let (source, rest) = word_at(after);
    let source = find(images, source)?;
    Some((reader, source, rest))
}

// The offset of a read, and a flow.
fn offset(bytes: &[u8]) -> Option<(i32, i32, u64)>
    ensures { MatchOption result ((make : ℤ → ℤ → ℕ → FlowLine) → behind_names make bytes.now ≡ None) (λ x. (make : ℤ → ℤ → ℕ → FlowLine)
        → behind_names make bytes.now ≡ Some (make x.0 x.1 x.2)) }
{
    let across = strip(b" ", bytes)?;
    let (dx, behind) = offset_at(across)?;
    let down = strip(b" ", behind)?;
    let (dy, rest) = offset_at(down)?;
    let flow = amount(rest)?;
    Some((dx, dy, flow))
}

// The images of a read, its offset and a flow.
fn read_flow(images: &[ImageLine], bytes: &[u8]) -> Option<(usize, usize, i32, i32, u64)>
    ensures { MatchOption result ((make : ℕ → ℕ → ℤ → ℤ → ℕ → FlowLine) → read_flow_at make images.now bytes.now ≡ None) (λ x. (make : ℕ → ℕ → ℤ → ℤ → ℕ
        → FlowLine) → read_flow_at make images.now bytes.now ≡ Some (make x.0 x.1 x.2 x.3 x.4)) }
{
    let (reader, source, rest) = places(images, bytes)?;
    let (dx, dy, flow) = offset(rest)?;
    Some((reader, source, dx, dy, flow))
}

// The flow line that a line is.
#[tactic(auto, unfolding(crate::specs::Reading::flow_at))]
pub(crate) fn flow_line(images: &[ImageLine], line: &[u8]) -> Option<FlowLine>
    ensures { MatchOption result (flow_at images.now line.now ≡ None) (λ x. flow_at images.now line.now ≡ Some x) }
{
    if let Some(rest) = strip(b"flow hold ", line) {
        let (image, flow) = image_flow(images, rest)?;
        return Some(FlowLine::Hold { image, flow });
    }
    if let Some(rest) = strip(b"flow start ", line) {
        let (image, flow) = image_flow(images, rest)?;
        return Some(FlowLine::Start { image, flow });
    }
    if let Some(rest) = strip(b"flow read ", line) {
        let (reader, source, dx, dy, flow) = read_flow(images, rest)?;
        return Some(FlowLine::Read {
            reader,
            source,
            dx,
            dy,
            flow,
        });
    }
    let rest = strip(b"flow keep ", line)?;
    let (reader, source, dx, dy, flow) = read_flow(images, rest)?;
    Some(FlowLine::Keep {
        reader,
        source,
        dx,
        dy,
        flow,
    })
}

// The place of a flow line's kind among the kinds.
fn kind(line: FlowLine) -> u8
    ensures { result ≡ kind line }
{
    match line {
        FlowLine::Hold { .. } => 0,
        FlowLine::Start { .. } => 1,
        FlowLine::Read { .. } => 2,
        FlowLine::Keep { .. } => 3,
    }
}

// What flow lines of a kind are ordered by: the images that they name, row and column; 0 where a line has none.
fn order_of(line: FlowLine) -> (usize, usize, i32, i32)
    ensures { record { f = result.0; g = result.1; dy = result.2; dx = result.3 } ≡ read_named line }
{
    match line {
        FlowLine::Hold { image, .. } => (image, 0, 0, 0),
        FlowLine::Start { image, .. } => (image, 0, 0, 0),
        FlowLine::Read {
            reader,
            source,
            dx,
            dy,
            ..
        } => (reader, source, dy, dx),
        FlowLine::Keep {
            reader,
            source,
            dx,
            dy,
            ..
        } => (reader, source, dy, dx),
    }
}

// Whether a flow line comes before another one.
fn stands_before(a: FlowLine, b: FlowLine) -> bool
    ensures yes { IsTrue result → StandsBefore a b }
    ensures no { StandsBefore a b → IsTrue result }
{
    if kind(a) != kind(b) {
        return kind(a) < kind(b);
    }
    is_before(order_of(a), order_of(b))
}

// Whether a flow line may follow these.
pub(crate) fn may_follow(flow: &[FlowLine], line: FlowLine) -> bool
    ensures { result ≡ follows flow.now line }
{
    match flow.last() {
        None => true,
        Some(last) => stands_before(*last, line),
    }
}

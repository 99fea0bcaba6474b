// The limits, judged in text order.

ghost use Rattle.std.specs.Prelude.{◌≡◌, ◌+◌, ◌≤◌, Some, None, MatchResult, IfOk, OnOk};
ghost use Rattle.dk_base.specs.declared.TheConstants.{MAX_BUFFER_BITS as MOST};
ghost use Rattle.wiring.specs.Sizes.{IsWidth, IsDepth};
ghost use Rattle.verilog_text.specs.declared.written.WrittenSort.TheVariants as sort;
ghost use Rattle.verilog_text.specs.Grammar.{source_of};
ghost use Rattle.verilog_text.specs.Limits.{width_fault, words_fault, width_of as bits_in, depth_of as words_in, bits_of, sort_fault, ports_fault, declarations_fault, count_fault, right_fault, assigns_fault, limit_fault, or_else};

use dk_base::{MAX_BUFFER_BITS, MAX_WIDTH};
use verilog_text::{
    Count, LimitFault, LimitKind, Range, Written, WrittenAssign, WrittenDeclaration, WrittenPort,
    WrittenRight, WrittenSort,
};

// A range of bits is `[w-1:0]` with w from 1 to 64.
fn check_range(range: &Range) -> Result<(), LimitFault>
    ensures { MatchResult result (λ u. width_fault (Some range.now) ≡ None) (λ f. width_fault (Some range.now) ≡ Some f) }
{
    if range.first.value >= u64::from(MAX_WIDTH) {
        return Err(LimitFault {
            span: range.first.span,
            kind: LimitKind::Width,
        });
    }
    if range.second.value == 0 {
        return Ok(());
    }
    Err(LimitFault {
        span: range.second.span,
        kind: LimitKind::Width,
    })
}

fn check_width(bits: &Option<Range>) -> Result<(), LimitFault>
    ensures { MatchResult result (λ u. width_fault bits.now ≡ None) (λ f. width_fault bits.now ≡ Some f) }
{
    match bits {
        None => Ok(()),
        Some(range) => check_range(range),
    }
}

// The words of an array are `[0:n-1]` with n from 1 to 67,108,864.
fn check_words(words: &Range) -> Result<(), LimitFault>
    ensures { MatchResult result (λ u. words_fault words.now ≡ None) (λ f. words_fault words.now ≡ Some f) }
{
    if words.first.value != 0 {
        return Err(LimitFault {
            span: words.first.span,
            kind: LimitKind::Words,
        });
    }
    if words.second.value < MAX_BUFFER_BITS {
        return Ok(());
    }
    Err(LimitFault {
        span: words.second.span,
        kind: LimitKind::Words,
    })
}

// The width of a range of bits, which is 1 where there is none.
pub fn width_of(bits: &Option<Range>) -> u8
    requires { width_fault bits.now ≡ None }
    ensures value { result ≡ bits_in bits.now }
    ensures width { IsWidth result }
{
    match bits {
        None => 1,
        Some(range) => range.first.value as u8 + 1,
    }
}

// The words of an array.
pub fn depth_of(words: &Range) -> u32
    requires { words_fault words.now ≡ None }
    ensures value { result ≡ words_in words.now }
    ensures depth { IsDepth result }
{
    words.second.value as u32 + 1
}

// The bits of all arrays with this one.
fn with_array(
    declaration: &WrittenDeclaration,
    words: &Range,
    before: u64,
) -> Result<u64, LimitFault>
    requires width { width_fault declaration.now.bits ≡ None }
    requires before { before ≤ MOST }
    ensures judged { MatchResult result (λ total. sort_fault declaration.now (sort.Array words.now) before
        ≡ None) (λ f. sort_fault declaration.now (sort.Array words.now) before ≡ Some f) }
    ensures total { IfOk result (λ total. total ≡ before + bits_of declaration.now.bits (sort.Array words.now)) }
    ensures most { IfOk result (λ total. total ≤ MOST) }
{
    check_words(words)?;
    let bits = u64::from(width_of(&declaration.bits)) * u64::from(depth_of(words));
    let total = before + bits;
    if total <= MAX_BUFFER_BITS {
        return Ok(total);
    }
    Err(LimitFault {
        span: declaration.name,
        kind: LimitKind::ArrayBits,
    })
}

fn with_sort(declaration: &WrittenDeclaration, before: u64) -> Result<u64, LimitFault>
    requires width { width_fault declaration.now.bits ≡ None }
    requires before { before ≤ MOST }
    ensures judged { MatchResult result (λ total. sort_fault declaration.now declaration.now.sort before
        ≡ None) (λ f. sort_fault declaration.now declaration.now.sort before ≡ Some f) }
    ensures total { IfOk result (λ total. total ≡ before + bits_of declaration.now.bits declaration.now.sort) }
    ensures most { IfOk result (λ total. total ≤ MOST) }
{
    match &declaration.sort {
        WrittenSort::Wire => Ok(before),
        WrittenSort::Reg => Ok(before),
        WrittenSort::Array(words) => with_array(declaration, words, before),
    }
}

// The bits of all arrays with those of a declaration.
fn with_declaration(declaration: &WrittenDeclaration, before: u64) -> Result<u64, LimitFault>
    requires before { before ≤ MOST }
    ensures judged { MatchResult result (λ total. or_else (width_fault declaration.now.bits) (sort_fault declaration.now declaration.now.sort before)
        ≡ None) (λ f. or_else (width_fault declaration.now.bits) (sort_fault declaration.now declaration.now.sort before) ≡ Some f) }
    ensures total { IfOk result (λ total. total ≡ before + bits_of declaration.now.bits declaration.now.sort) }
    ensures most { IfOk result (λ total. total ≤ MOST) }
{
    check_width(&declaration.bits)?;
    let total = with_sort(declaration, before)?;
    Ok(total)
}

fn check_ports(ports: &[WrittenPort]) -> Result<(), LimitFault>
    ensures { MatchResult result (λ u. ports_fault ports.now ≡ None) (λ f. ports_fault ports.now ≡ Some f) }
{
    for port in ports {
        check_width(&port.bits)?;
    }
    Ok(())
}

fn check_declarations(declarations: &[WrittenDeclaration]) -> Result<(), LimitFault>
    ensures { MatchResult result (λ u. declarations_fault 0 declarations.now ≡ None) (λ f. declarations_fault 0 declarations.now ≡ Some f) }
{
    let mut total = 0;
    for declaration in declarations {
        total = with_declaration(declaration, total)?;
    }
    Ok(())
}

// A count of copies is 1 to 64.
fn check_count(count: &Count) -> Result<(), LimitFault>
    ensures { MatchResult result (λ u. count_fault count.now ≡ None) (λ f. count_fault count.now ≡ Some f) }
{
    if count.value >= 1 && count.value <= u64::from(MAX_WIDTH) {
        return Ok(());
    }
    Err(LimitFault {
        span: count.span,
        kind: LimitKind::Repeat,
    })
}

fn check_right(right: &WrittenRight) -> Result<(), LimitFault>
    ensures { MatchResult result (λ u. right_fault right.now ≡ None) (λ f. right_fault right.now ≡ Some f) }
{
    match right {
        WrittenRight::Repeat(count, _) => check_count(count),
        WrittenRight::Copy(_) => Ok(()),
        WrittenRight::Not(_) => Ok(()),
        WrittenRight::Binary(_, _, _) => Ok(()),
        WrittenRight::Choose(_, _, _) => Ok(()),
        WrittenRight::Join(_, _) => Ok(()),
        WrittenRight::Bit(_, _) => Ok(()),
        WrittenRight::Slice(_, _, _) => Ok(()),
        WrittenRight::Word(_, _) => Ok(()),
    }
}

fn check_assigns(assigns: &[WrittenAssign]) -> Result<(), LimitFault>
    ensures { MatchResult result (λ u. assigns_fault assigns.now ≡ None) (λ f. assigns_fault assigns.now ≡ Some f) }
{
    for assign in assigns {
        check_right(&assign.right)?;
    }
    Ok(())
}

// Nothing where what is written is within the limits, else the first limit that is passed.
pub fn check_limits(written: &Written) -> Result<(), LimitFault>
    ensures { MatchResult result (λ u. limit_fault (source_of written.now) ≡ None) (λ f. limit_fault (source_of written.now) ≡ Some f) }
{
    check_ports(&written.ports)?;
    check_declarations(&written.declarations)?;
    check_assigns(&written.assigns)?;
    Ok(())
}

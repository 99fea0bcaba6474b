// Whether ports are those of the profile.

ghost use Rattle.std.specs.Prelude.{◌≡◌, ◌<◌, ◌≤◌, IsTrue, OnOk, IfErr};
ghost use Rattle.std.specs.Str.{bytes_eq};
ghost use Rattle.wiring.specs.declared.TheConstants.{MOST_PORTS};
ghost use Rattle.netlist.specs.Names.{numbered};
ghost use Rattle.netlist.specs.Faults.{FitsRule, HasRuleWidth, PortsFit};
ghost use Rattle.netlist.specs.Passes.{NamesDiffer, PassesPorts, IsPassFault};
ghost use Rattle.netlist.specs.Profile.{din_rule, AreOutputs, AreFromDins, AreFromEnable, IsNumberedPort};

use crate::fault::NetFault;
use crate::parts::{Direction, Parts, Port};
use wiring::{MOST_PORT_BITS, MOST_PORTS, Width};

// Whether the bytes are the same.
pub(crate) fn same(left: &[u8], right: &[u8]) -> bool
    ensures { result ≡ bytes_eq left.now right.now }
{
    left == right
}

fn is_numbered(name: &[u8], word: &[u8], number: usize) -> bool
    requires { number < MOST_PORTS }
    ensures yes { IsTrue result → name.now ≡ numbered word.now number }
    ensures no { name.now ≡ numbered word.now number → IsTrue result }
{
    if number == 0 {
        return name == word;
    }
    match name.split_last() {
        None => false,
        Some((digit, front)) => {
            if !same(front, word) {
                return false;
            }
            *digit as usize == 48 + number
        }
    }
}

fn has_rule_width(width: Width, wide: bool) -> bool
    ensures yes { IsTrue result → HasRuleWidth wide width }
    ensures no { HasRuleWidth wide width → IsTrue result }
{
    let bits = width.bits();
    if wide {
        bits <= MOST_PORT_BITS
    } else {
        bits == 1
    }
}

// Whether this is the port of the number with this word, 1 bit wide where it may not be wide.
fn fits(port: &Port, direction: Direction, word: &[u8], number: usize, wide: bool) -> bool
    requires { number < MOST_PORTS }
    ensures yes { IsTrue result → IsNumberedPort port.now direction word.now number wide }
    ensures no { IsNumberedPort port.now direction word.now number wide → IsTrue result }
{
    if port.direction != direction {
        return false;
    }
    if !has_rule_width(port.width, wide) {
        return false;
    }
    is_numbered(port.name.as_bytes(), word, number)
}

// Whether these are outputs, a valid and a dout each, from this number on.
fn are_outputs(ports: &[Port], number: usize) -> bool
    requires { number ≤ MOST_PORTS }
    ensures yes { IsTrue result → AreOutputs ports.now number }
    ensures no { AreOutputs ports.now number → IsTrue result }
{
    let Some((valid, rest)) = ports.split_first() else {
        return true;
    };
    let Some((dout, more)) = rest.split_first() else {
        return false;
    };
    if number >= MOST_PORTS {
        return false;
    }
    if !fits(valid, Direction::Output, b"valid", number, false) {
        return false;
    }
    if !fits(dout, Direction::Output, b"dout", number, true) {
        return false;
    }
    are_outputs(more, number + 1)
}

fn is_din(port: &Port, number: usize) -> bool
    ensures yes { IsTrue result → (number < MOST_PORTS) × FitsRule port.now (din_rule number) }
    ensures no { number < MOST_PORTS → FitsRule port.now (din_rule number) → IsTrue result }
{
    if number >= MOST_PORTS {
        return false;
    }
    fits(port, Direction::Input, b"din", number, true)
}

// Whether these are dins from this number on, and outputs after them.
fn are_from_dins(ports: &[Port], number: usize) -> bool
    requires { number ≤ MOST_PORTS }
    ensures yes { IsTrue result → AreFromDins ports.now number }
    ensures no { AreFromDins ports.now number → IsTrue result }
{
    let Some((din, rest)) = ports.split_first() else {
        return false;
    };
    if is_din(din, number) {
        return are_from_dins(rest, number + 1);
    }
    if number == 0 {
        return false;
    }
    are_outputs(ports, 0)
}

fn are_from_enable(ports: &[Port]) -> bool
    ensures yes { IsTrue result → AreFromEnable ports.now }
    ensures no { AreFromEnable ports.now → IsTrue result }
{
    let Some((enable, rest)) = ports.split_first() else {
        return false;
    };
    if fits(enable, Direction::Input, b"en", 0, false) {
        return are_from_dins(rest, 0);
    }
    are_from_dins(ports, 0)
}

fn ports_fit(ports: &[Port]) -> bool
    ensures yes { IsTrue result → PortsFit ports.now }
    ensures no { PortsFit ports.now → IsTrue result }
{
    let Some((clock, behind)) = ports.split_first() else {
        return false;
    };
    let Some((reset, rest)) = behind.split_first() else {
        return false;
    };
    if !fits(clock, Direction::Input, b"clk", 0, false) {
        return false;
    }
    if !fits(reset, Direction::Input, b"rst", 0, false) {
        return false;
    }
    are_from_enable(rest)
}

// Whether the ports are those of the profile.
pub(crate) fn check_ports(parts: &Parts) -> Result<(), NetFault>
    requires { NamesDiffer parts.now }
    ensures ok { OnOk result (PassesPorts parts.now) }
    ensures fault { IfErr result (IsPassFault parts.now) }
{
    if ports_fit(&parts.ports) {
        Ok(())
    } else {
        Err(NetFault::Ports)
    }
}

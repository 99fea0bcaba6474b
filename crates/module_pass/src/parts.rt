// The parts of a netlist as a text has them, under made names. Nothing is claimed of them: the module that is made of them is tested.

use crate::naming::made_name;
use netlist::{
    Declaration, Direction, Name, NamedAssign, NamedUpdate, NetError, NetFault, Parts, Port, Sort,
    input_name, output_name,
};
use std::alloc::Global;
use wiring::{Assign, Atom, Net, Netlist, Right, Update, Width};

// The name of these bytes; bytes that are none belong to a port that the profile has not.
fn named(bytes: Vec<u8>) -> Result<Name, NetError> {
    match Name::checked(bytes) {
        Some(name) => Ok(name),
        None => Err(NetError::Fault(NetFault::Ports)),
    }
}

// Gives the nets and the arrays of a netlist their names, which depend on whether it has the port `en`.
#[derive(Clone, Copy)]
struct Namer {
    alloc: Global,
    enable: bool,
}

impl Namer {
    fn copied(self, bytes: &[u8]) -> Result<Name, NetError> {
        let mut copy = Vec::new(self.alloc);
        copy.extend_from_slice(bytes)?;
        named(copy)
    }

    fn made(self, letter: &str, number: usize) -> Result<Name, NetError> {
        named(made_name(self.alloc, letter, number)?)
    }

    fn array(self, array: usize) -> Result<Name, NetError> {
        self.made("m", array)
    }

    fn net(self, net: Net) -> Result<Name, NetError> {
        match net {
            Net::Input(k) => self.copied(input_name(self.enable, k)),
            Net::Output(k) => self.copied(output_name(k)),
            Net::Wire(k) => self.made("n", k),
            Net::Reg(k) => self.made("r", k),
        }
    }

    fn atom(self, atom: &Atom<Net>) -> Result<Atom<Name>, NetError> {
        match atom {
            Atom::Net(net) => Ok(Atom::Net(self.net(*net)?)),
            Atom::Constant(constant) => Ok(Atom::Constant(*constant)),
        }
    }

    fn right(self, right: &Right<Net, usize>) -> Result<Right<Name, Name>, NetError> {
        Ok(match right {
            Right::Copy(a) => Right::Copy(self.atom(a)?),
            Right::Not(a) => Right::Not(self.atom(a)?),
            Right::Binary(operator, a, b) => {
                Right::Binary(*operator, self.atom(a)?, self.atom(b)?)
            }
            Right::Choose(c, a, b) => Right::Choose(self.atom(c)?, self.atom(a)?, self.atom(b)?),
            Right::Join(a, b) => Right::Join(self.atom(a)?, self.atom(b)?),
            Right::Repeat(n, a) => Right::Repeat(*n, self.atom(a)?),
            Right::Bit(net, k) => Right::Bit(self.net(*net)?, *k),
            Right::Slice(net, top, low) => Right::Slice(self.net(*net)?, *top, *low),
            Right::Word(array, index) => Right::Word(self.array(*array)?, self.atom(index)?),
        })
    }

    fn update(self, update: &Update) -> Result<NamedUpdate, NetError> {
        Ok(match update {
            Update::Set(reg, value) => {
                NamedUpdate::Set(self.net(Net::Reg(*reg))?, self.atom(value)?)
            }
            Update::Put(array, index, value) => {
                NamedUpdate::Put(self.array(*array)?, self.atom(index)?, self.atom(value)?)
            }
        })
    }

    fn input(self, width: Width, name: &[u8]) -> Result<Port, NetError> {
        Ok(Port {
            direction: Direction::Input,
            width,
            name: self.copied(name)?,
        })
    }

    // The inputs, which the clock comes before, and the outputs.
    fn ports(self, wiring: &Netlist) -> Result<Vec<Port>, NetError> {
        let mut ports = Vec::new(self.alloc);
        ports.push(self.input(Width::new(1), b"clk")?)?;
        for (k, width) in wiring.inputs.iter().enumerate() {
            ports.push(self.input(*width, input_name(self.enable, k))?)?;
        }
        for (k, width) in wiring.outputs.iter().enumerate() {
            ports.push(Port {
                direction: Direction::Output,
                width: *width,
                name: self.copied(output_name(k))?,
            })?;
        }
        Ok(ports)
    }

    // The wires, the registers and the arrays.
    fn declarations(self, wiring: &Netlist) -> Result<Vec<Declaration>, NetError> {
        let mut declarations = Vec::new(self.alloc);
        for (k, width) in wiring.wires.iter().enumerate() {
            let name = self.made("n", k)?;
            let sort = Sort::Wire(*width);
            declarations.push(Declaration { name, sort })?;
        }
        for (k, width) in wiring.regs.iter().enumerate() {
            let name = self.made("r", k)?;
            let sort = Sort::Reg(*width);
            declarations.push(Declaration { name, sort })?;
        }
        for (k, shape) in wiring.arrays.iter().enumerate() {
            let name = self.array(k)?;
            let sort = Sort::Array(*shape);
            declarations.push(Declaration { name, sort })?;
        }
        Ok(declarations)
    }

    fn assigns(self, assigns: &[Assign]) -> Result<Vec<NamedAssign>, NetError> {
        let mut list = Vec::new(self.alloc);
        for assign in assigns {
            let target = self.net(assign.target)?;
            let right = self.right(&assign.right)?;
            list.push(NamedAssign { target, right })?;
        }
        Ok(list)
    }

    fn updates(self, updates: &[Update]) -> Result<Vec<NamedUpdate>, NetError> {
        let mut list = Vec::new(self.alloc);
        for update in updates {
            list.push(self.update(update)?)?;
        }
        Ok(list)
    }
}

// The parts of the netlist.
pub(crate) fn parts_of(alloc: Global, wiring: &Netlist) -> Result<Parts, NetError> {
    let namer = Namer {
        alloc,
        enable: wiring.enable,
    };
    Ok(Parts {
        name: namer.copied(b"dk")?,
        ports: namer.ports(wiring)?,
        declarations: namer.declarations(wiring)?,
        assigns: namer.assigns(&wiring.assigns)?,
        updates: namer.updates(&wiring.updates)?,
    })
}

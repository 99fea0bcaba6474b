// Modules, from their texts.

use netlist::Module;
use std::alloc::Global;
use std::test::Fail;
use verilog_read::read;

pub fn module(alloc: Global, text: &str) -> Result<Module, Fail> {
    match read(alloc, text.as_bytes()) {
        Ok(module) => Ok(module),
        Err(_) => Err(Fail::new("no module")),
    }
}

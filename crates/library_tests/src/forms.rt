// The circuit of a program with rings, a form of buffers that the program `dk` does not offer: its arrays and the words of ages, worked out by hand.

use circuit::{BufferForm, Ring, build};
use dk_compile::planned;
use std::test::Fail;

// An image that is read five and two columns to the left, and one that is read one and three columns to the left.
const IN_TURN: &[u8] =
    b"size 8 1 input a:u8 let f=im(x,y) (a(x-5,y)+a(x-2,y)) as u8 end let g=im(x,y) (f(x-1,y)+f(x-3,y)) as u8 end output g";

#[test]
fn a_ring_is_one_array(rt: HostRuntime) -> Result<(), Fail> {
    let alloc = rt.alloc();
    let Ok(program) = planned(alloc, IN_TURN, 0) else {
        return Err(Fail::new("no program"));
    };
    let built = build(alloc, &program.ir, &program.plan, &Ring)?;
    let mut line = String::new(alloc);
    for shape in &built.module.wiring().arrays {
        write!(line, "{}x{} ", shape.depth.words(), shape.width.bits())?;
    }
    assert_eq!(rt; line.as_str(), "5x8 3x8 ");
    let plan = &program.plan;
    if plan.kept(0) && plan.depth(0) >= 4 {
        let slot = Ring.place(plan, 0, 4, 10);
        assert_eq!(rt; (slot.array, slot.word), (0, 1));
    } else {
        assert!(rt; false, "image 0 has five words");
    }
    Ok(())
}

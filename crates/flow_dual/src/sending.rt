// Each image's width sent from where it begins to where it ends.

ghost use Rattle.std.specs.Prelude.{◌<◌, ◌≤◌, ◌+◌, length, OnOk};
ghost use Rattle.dk_base.specs.declared.TheConstants.{MAX_KEPT_IMAGES};
ghost use Rattle.raster_delay.specs.Network.{constraint_at};
ghost use Rattle.flow_dual.specs.Solutions.{IsGreatest, IsStart};
ghost use Rattle.flow_dual.specs.Tree.{IsHold, IsNetwork, IsStateAfter, Moves};

use crate::pushing::{Paths, push};
use crate::shifting::{least_slack, raise};
use crate::tree::{Network, reach};
use dk_base::OutOfMemory;
use raster_delay::System;
use std::alloc::Global;

// Sends an image's width from where its values begin to be held to where they end, and keeps each constraint with flow tight.
fn send(
    alloc: Global,
    network: &Network,
    numbers: &mut [u64],
    flow: &mut [u64],
    image: usize,
    width: u8,
) -> Result<(), OutOfMemory>
    requires network { IsNetwork (length numbers.old) network.now.constraints.now }
    requires nodes { length numbers.old ≤ 528 }
    requires images { image < MAX_KEPT_IMAGES }
    requires hold { IsHold network.now.constraints.now image }
    requires sent { IsStateAfter network.now.constraints.now numbers.old flow.old image }
    ensures sent { OnOk result
        (IsStateAfter network.now.constraints.now numbers.new flow.new (image + 1)) }
    ensures moves { OnOk result (Moves network.now.constraints.now flow.old flow.new
        (constraint_at network.now.constraints.now image).source
        (constraint_at network.now.constraints.now image).target width) }
{
    let constraints = network.constraints;
    let begin = constraints[image].source;
    let end = constraints[image].target;
    let mut rest = u64::from(width);
    while rest > 0 {
        let tree = reach(alloc, network, numbers, flow, begin)?;
        let order = tree.order.as_slice();
        if order[end] != 0 {
            let parent = tree.parent.as_slice();
            let paths = Paths {
                root: begin,
                order,
                parent,
            };
            rest -= push(constraints, &paths, flow, end, rest);
        } else {
            let by = least_slack(constraints, numbers, order);
            raise(numbers, order, by);
        }
    }
    Ok(())
}

// Sends each image's width from its beginning to its end.
pub fn send_all(
    alloc: Global,
    system: &System,
    incident: &[Vec<usize>],
    numbers: &mut [u64],
    flow: &mut [u64],
) -> Result<(), OutOfMemory>
    requires { IsStart system.now numbers.old flow.old }
    ensures { OnOk result (IsGreatest system.now numbers.new flow.new) }
{
    system.law();
    let constraints = system.constraints();
    let network = Network {
        constraints,
        incident,
    };
    let images = system.images();
    for image in 0..images.len() {
        let width = images[image].width;
        send(alloc, &network, numbers, flow, image, width)?;
    }
    Ok(())
}

//! A new funnel.
ghost use Rattle.std.specs.Prelude.{◌≡◌, ◌+◌, ◌<◌, [], Some, None, Err, IfOk, IfErr, OnOk, All};
ghost use Rattle.crossbeam_channel.specs.Claims.{IsSeatAt};
ghost use Rattle.crossbeam_channel.specs.Ends.{sends_on};
ghost use Rattle.funnel.specs.Limits.{limit_fault, most_ports};
ghost use Rattle.funnel.specs.declared.fault.OpenFault.{OpenFault as AnyFault};
ghost use Rattle.funnel.specs.Ends.{new_port, AreNewPorts};
ghost use Rattle.funnel.specs.steps.Passes.{id_of, knows, taken_by_outlet, IsOutlet};

use crate::limits::{MOST_PORTS, opening_fault};
use crate::low_water::{Drain, LowWater};
use crate::rule::{HandOut, Law, Sender, Ticket, View};
use crate::{OpenFault, Outlet, Port};
use crossbeam_channel::bounded_with;
use message::Message;
use std::alloc::{AllocError, Allocator};
use std::sync::Arc;

/// Opens a funnel for 1 to 64 harts, over a channel that holds `capacity` messages, 1 to 65,536. There is a port for
/// each hart, at the hart's place.
pub fn open<A: Allocator + Clone>(
    alloc: A,
    harts: u16,
    capacity: u32,
) -> Result<(Vec<Port<A>, A>, Outlet<A>), OpenFault>
    ensures ports { IfOk result (λ opened. AreNewPorts opened.1.funnel harts opened.0.items) }
    ensures made { IfOk result (λ opened. opened.1.made ≡ harts) }
    ensures room { IfOk result (λ opened. opened.1.room ≡ capacity) }
    ensures nothing_taken { IfOk result (λ opened. opened.1.taken ≡ []) }
    ensures each { IfOk result
        (λ opened. All (λ port. (port.funnel ≡ opened.1.funnel) × (port.sent ≡ [])) opened.0.items) }
    ensures refused { (fault : AnyFault) → limit_fault most_ports harts capacity ≡ Some fault → result ≡ Err fault }
    ensures memory { limit_fault most_ports harts capacity ≡ None → IfErr result (λ fault. fault ≡ OpenFault.Memory) }
{
    if let Some(fault) = opening_fault(MOST_PORTS, usize::from(harts), capacity) {
        return Err(fault);
    }
    match opened(alloc, harts, capacity) {
        Ok(funnel) => Ok(funnel),
        Err(_) => Err(OpenFault::Memory),
    }
}

/// Makes a channel, and hands out a port for each hart.
fn opened<A: Allocator + Clone>(
    alloc: A,
    harts: u16,
    capacity: u32,
) -> Result<(Vec<Port<A>, A>, Outlet<A>), AllocError>
    requires { 0 < capacity }
    ensures ports { IfOk result (λ opened. AreNewPorts opened.1.funnel harts opened.0.items) }
    ensures made { IfOk result (λ opened. opened.1.made ≡ harts) }
    ensures room { IfOk result (λ opened. opened.1.room ≡ capacity) }
    ensures nothing_taken { IfOk result (λ opened. opened.1.taken ≡ []) }
{
    let counts = Vec::from_elem(alloc.clone()?, 0u64, usize::from(harts))?;
    let low = Arc::new(alloc.clone()?, LowWater::new(capacity as usize))?;
    let (sender, receiver, mut pass) = bounded_with::<Message, View, Law, A>(
        alloc.clone()?,
        capacity as usize,
    )?;
    let ports = ports_of(alloc, &sender, &low, &mut pass, harts)?;
    let outlet = Outlet {
        receiver,
        pass,
        counts,
        drain: Drain::new(low, capacity as usize),
    };
    Ok((ports, outlet))
}

/// Hands out a port for each hart of a new channel. All ports send by this end and wait there while the funnel is full.
fn ports_of<A: Allocator>(
    alloc: A,
    sender: &Sender<A>,
    low: &Arc<LowWater, A>,
    pass: &mut Ticket,
    harts: u16,
) -> Result<Vec<Port<A>, A>, AllocError>
    requires seat { IsSeatAt (sends_on sender.now) pass.old }
    requires next { IsOutlet 0 (knows pass.old) }
    ensures seat { OnOk result (IsSeatAt (sends_on sender.now) pass.new × (id_of pass.new ≡ id_of pass.old)) }
    ensures next { OnOk result
        (IsOutlet harts (knows pass.new) × (taken_by_outlet (knows pass.new) ≡ taken_by_outlet (knows pass.old))) }
    ensures ports { IfOk result (λ ports. AreNewPorts (id_of pass.old) harts ports.items) }
{
    let mut ports = Vec::with_capacity(alloc, usize::from(harts))?;
    for hart in 0..harts {
        let port = port_of(sender.try_clone()?, Arc::try_clone(low)?, pass, hart);
        ports.push_reserved(port);
    }
    Ok(ports)
}

/// Hands out the next port, which sends by this end and waits there while the funnel is full.
fn port_of<A: Allocator>(
    sender: Sender<A>,
    low: Arc<LowWater, A>,
    pass: &mut Ticket,
    hart: u16,
) -> Port<A>
    requires seat { IsSeatAt (sends_on sender) pass.old }
    requires next { IsOutlet hart (knows pass.old) }
    ensures seat { IsSeatAt (sends_on sender) pass.new × (id_of pass.new ≡ id_of pass.old) }
    ensures next { IsOutlet (hart + 1) (knows pass.new)
        × (taken_by_outlet (knows pass.new) ≡ taken_by_outlet (knows pass.old)) }
    ensures port { result ≡ new_port (id_of pass.old) hart }
{
    let theirs = sender.another::<HandOut>(pass);
    Port {
        sender,
        low,
        pass: theirs,
        hart,
        count: 0,
        closed: false,
    }
}

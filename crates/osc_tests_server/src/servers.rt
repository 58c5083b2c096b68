// Servers with small tables, and a fader on one.
use osc_core::{Adding, Core};
use osc_method::Method;
use osc_pattern::Address;
use osc_record::{Caps, Late};
use osc_uses::Fader;
use std::alloc::Global;
use std::test::Fail;

pub(crate) fn caps(callers: u32) -> Result<Caps, Fail> {
    Ok(
        Caps::new(8, 8, 8, 8, callers, 4096, Late::Deliver)
            .ok()
            .ok_or("limits")?,
    )
}

pub(crate) fn address(alloc: Global, bytes: &[u8]) -> Result<Address, Fail> {
    Ok(Address::read(alloc, bytes).ok().ok_or("an address")?)
}

fn add<M: Method>(core: &mut Core<M>, address: Address, method: M) -> Adding<M> {
    let _ = core.callers();
    core.add(0, address, method)
}

/// A server with one fader.
pub(crate) fn with_fader(alloc: Global, at: &[u8]) -> Result<Core<Fader>, Fail> {
    let mut core = Core::open(alloc, caps(1)?)?;
    match add(&mut core, address(alloc, at)?, Fader::new()) {
        Adding::Added(0) => Ok(core),
        _ => Err(Fail::new("not added")),
    }
}

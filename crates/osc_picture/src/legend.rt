// What each form means.
ghost use Rattle.std.specs.Prelude.{◌≡◌, ◌++◌, ◌<◌, ◌^◌, OnOk, IfOk};
ghost use Rattle.osc_picture.specs.Legends as spec;

use crate::column::{add_cross, add_open, add_upright};
use crate::element::{add_path, add_point, add_rect, add_step, add_text};
use crate::wait::add_square;
use std::alloc::{AllocError, Global};

/// Adds two lines, the first of which stands at a height.
#[tactic(auto, unfolding(crate::specs::Legends::legend))]
pub(crate) fn add_legend(out: &mut Vec<u8>, y: u64) -> Result<(), AllocError>
    requires { y < 2 ^ 33 }
    ensures { OnOk result (out.new.items ≡ out.old.items ++ spec.legend y) }
{
    add_call_key(out, y)?;
    add_bundle_key(out, y)?;
    add_wait_key(out, y)?;
    add_cross_key(out, y)?;
    add_unheard_key(out, y + 230)?;
    add_number_key(out, y + 230)?;
    add_life_key(out, y + 230)
}

#[tactic(auto, unfolding(crate::specs::Legends::call_key))]
fn add_call_key(out: &mut Vec<u8>, y: u64) -> Result<(), AllocError>
    requires { y < 2 ^ 34 }
    ensures { OnOk result (out.new.items ≡ out.old.items ++ spec.call_key y) }
{
    add_line(out, b"", 180, y.saturating_sub(110), y + 10)?;
    add_text(out, b"", 260, y, b"call")
}

/// Adds a path that is one upright line.
fn add_line(out: &mut Vec<u8>, kind: &[u8], x: u64, top: u64, end: u64) -> Result<(), AllocError>
    ensures { OnOk result (out.new.items ≡ out.old.items ++ spec.line kind.now x top end) }
{
    let alloc: Global = *out.allocator();
    let mut steps = Vec::new(alloc);
    add_upright(&mut steps, x, top, end)?;
    add_path(out, kind, &steps)
}

#[tactic(auto, unfolding(crate::specs::Legends::bundle_key))]
fn add_bundle_key(out: &mut Vec<u8>, y: u64) -> Result<(), AllocError>
    requires { y < 2 ^ 34 }
    ensures { OnOk result (out.new.items ≡ out.old.items ++ spec.bundle_key y) }
{
    add_line(out, b"class=\"j\" ", 1320, y.saturating_sub(110), y + 10)?;
    let alloc: Global = *out.allocator();
    let mut ends = Vec::new(alloc);
    add_upright(&mut ends, 1320, y.saturating_sub(110), y.saturating_sub(70))?;
    add_upright(&mut ends, 1320, y.saturating_sub(30), y + 10)?;
    add_path(out, b"", &ends)?;
    add_text(out, b"", 1400, y, b"bundle")
}

#[tactic(auto, unfolding(crate::specs::Legends::wait_key))]
fn add_wait_key(out: &mut Vec<u8>, y: u64) -> Result<(), AllocError>
    requires { y < 2 ^ 33 }
    ensures { OnOk result (out.new.items ≡ out.old.items ++ spec.wait_key y) }
{
    let alloc: Global = *out.allocator();
    let mut steps = Vec::new(alloc);
    add_point(&mut steps, b'M', 2710, y.saturating_sub(50))?;
    add_step(&mut steps, b'H', 2860)?;
    add_path(out, b"class=\"w\" ", &steps)?;
    add_square(out, 2710, y.saturating_sub(50))?;
    add_line(out, b"", 2860, y.saturating_sub(90), y.saturating_sub(10))?;
    add_text(out, b"", 2940, y, b"came and waited")
}

#[tactic(auto, unfolding(crate::specs::Legends::cross_key))]
fn add_cross_key(out: &mut Vec<u8>, y: u64) -> Result<(), AllocError>
    requires { y < 2 ^ 33 }
    ensures { OnOk result (out.new.items ≡ out.old.items ++ spec.cross_key y) }
{
    let alloc: Global = *out.allocator();
    let mut steps = Vec::new(alloc);
    add_cross(&mut steps, 4930, y.saturating_sub(50))?;
    add_path(out, b"class=\"x\" ", &steps)?;
    add_text(out, b"", 5020, y, b"discarded or refused")
}

#[tactic(auto, unfolding(crate::specs::Legends::unheard_key))]
fn add_unheard_key(out: &mut Vec<u8>, y: u64) -> Result<(), AllocError>
    requires { y < 2 ^ 34 }
    ensures { OnOk result (out.new.items ≡ out.old.items ++ spec.unheard_key y) }
{
    let alloc: Global = *out.allocator();
    let mut steps = Vec::new(alloc);
    add_open(&mut steps, 180, y.saturating_sub(100), y)?;
    add_path(out, b"class=\"o\" ", &steps)?;
    add_text(out, b"", 260, y, b"no method")
}

#[tactic(auto, unfolding(crate::specs::Legends::number_key))]
fn add_number_key(out: &mut Vec<u8>, y: u64) -> Result<(), AllocError>
    requires { y < 2 ^ 34 }
    ensures { OnOk result (out.new.items ≡ out.old.items ++ spec.number_key y) }
{
    let alloc: Global = *out.allocator();
    let mut steps = Vec::new(alloc);
    add_point(&mut steps, b'M', 1270, y)?;
    add_step(&mut steps, b'H', 1310)?;
    add_step(&mut steps, b'V', y.saturating_sub(50))?;
    add_step(&mut steps, b'H', 1350)?;
    add_step(&mut steps, b'V', y.saturating_sub(100))?;
    add_step(&mut steps, b'H', 1390)?;
    add_path(out, b"class=\"c\" ", &steps)?;
    add_text(out, b"", 1460, y, b"its number")
}

#[tactic(auto, unfolding(crate::specs::Legends::life_key))]
fn add_life_key(out: &mut Vec<u8>, y: u64) -> Result<(), AllocError>
    requires { y < 2 ^ 34 }
    ensures { OnOk result (out.new.items ≡ out.old.items ++ spec.life_key y) }
{
    add_rect(out, b"l", 2690, y.saturating_sub(105), 190, 120)?;
    add_text(out, b"", 2940, y, b"the method is there")
}

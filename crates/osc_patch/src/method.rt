//! The methods of a patch.
use osc_atoms::Bytes;
use osc_pattern::Address;
use std::alloc::{AllocError, Global};
use std::marker::Model;

/// Where a method sends its calls, by UDP.
#[derive(Drop)]
pub struct Route {
    /// An IPv4 address with its dots, or a name to be looked up, as the patch has it.
    pub host: Bytes,
    /// From 1 to 65535.
    pub port: u16,
    /// The number of its line, counted from 1.
    pub line: u32,
}

/// Routes, in the order of their lines. A contract sees the list.
#[derive(Drop)]
pub struct Routes {
    items: Vec<Route>,
}

impl Model for Routes {
    ghost use Rattle.std.specs.Prelude.{List};
    ghost use Rattle.osc_patch.specs.declared.method.Route.{Route};

    ghost Value = { List Route };

    ghost view = { λ r. r.items.items };
}

impl Routes {
    ghost use Rattle.std.specs.Prelude.{◌≡◌, ◌++◌, IfOk, OnOk, [], option_to_list};

    /// The one route, or none.
    pub(crate) fn of(alloc: Global, route: Option<Route>) -> Result<Routes, AllocError>
        ensures { IfOk result (λ routes. routes ≡ option_to_list route) }
    {
        let mut items = Vec::new(alloc);
        if let Some(route) = route {
            items.push(route)?;
        }
        Ok(Routes { items })
    }

    /// Adds a route, where there is one.
    pub(crate) fn add(&mut self, route: Option<Route>) -> Result<(), AllocError>
        ensures { OnOk result (self.new ≡ self.old ++ option_to_list route) }
    {
        if let Some(other) = route {
            self.items.push(other)?;
        }
        Ok(())
    }

    /// The routes. Takes no memory.
    pub fn as_slice(&self) -> &[Route]
        ensures { result.now ≡ self.now }
    {
        &self.items
    }
}

/// A method, with where it sends its calls.
#[derive(Drop)]
pub struct PatchMethod {
    pub address: Address,
    /// The number of the first line that adds it, counted from 1.
    pub line: u32,
    /// None, where its calls are only shown.
    pub routes: Routes,
}

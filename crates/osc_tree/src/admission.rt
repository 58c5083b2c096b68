// Whether an address can be added.
ghost use Rattle.std.specs.Prelude.{◌≡◌, ◌≤◌, length, IfOk, IfErr, None, Some};
ghost use Rattle.osc_pattern.specs.Addresses.{IsAddress};
ghost use Rattle.osc_pattern.specs.Methods.{IsMethodList, nodes};
ghost use Rattle.osc_tree.specs.Nodes.{new_nodes};
ghost use Rattle.osc_tree.specs.Adding.{IsAddable, IsRefused, refusal_of, add_refusal};
ghost use Rattle.osc_tree.specs.Order.{IsOrder, IsSearched};
ghost use Rattle.osc_tree.specs.Views.{methods_of, methods_at, registry_of};

use crate::lookup::{has_below, id_above, id_there};
use crate::nodes::new_nodes;
use crate::refusals::TreeRefusal;
use crate::registered::Registered;
use crate::search::count_before;
use osc_atoms::Room;
use osc_pattern::Address;

/// Where an address enters among the places, and how many nodes it adds.
#[derive(Clone, Copy)]
pub(crate) struct Admission {
    pub(crate) at: usize,
    pub(crate) need: u32,
}

/// Where the address enters and how many nodes it adds, or why it can't be added. The lines are
/// tried in this order.
pub(crate) fn admit(
    methods: &[Registered],
    places: &[u32],
    address: &Address,
    method_limit: u32,
    node_limit: u32,
    node_count: u32,
) -> Result<Admission, TreeRefusal>
    requires list { IsMethodList (methods_of methods.now) }
    requires order { IsOrder methods.now places.now }
    requires counted { node_count ≡ nodes (methods_of methods.now) }
    requires few_nodes { node_count ≤ node_limit }
    requires few_methods { length methods.now ≤ method_limit }
    ensures need { IfOk result
        (λ admission. admission.need ≡ new_nodes (methods_of methods.now) address.now) }
    ensures at { IfOk result (λ admission. IsSearched address.now
        (methods_at methods.now places.now) admission.at admission.at) }
    ensures accepted { IfOk result
        (λ _. IsAddable (registry_of methods.now method_limit node_limit) address.now) }
    ensures lawful { IfOk result (λ _. IsAddress address.now) }
    ensures none { IfOk result
        (λ _. add_refusal (registry_of methods.now method_limit node_limit) address.now ≡ None) }
    ensures refused { IfErr result
        (λ refusal. IsRefused (registry_of methods.now method_limit node_limit) address.now
        refusal) }
    ensures read { IfErr result
        (λ refusal. add_refusal (registry_of methods.now method_limit node_limit) address.now
        ≡ Some (refusal_of refusal)) }
{
    let bytes = address.bytes();
    let at = count_before(methods, places, bytes);
    if let Some(id) = id_there(methods, places, at, bytes) {
        return Err(TreeRefusal::Taken(id));
    }
    if let Some(id) = id_above(methods, places, at, bytes) {
        return Err(TreeRefusal::UnderMethod(id));
    }
    if has_below(methods, places, at, bytes) {
        return Err(TreeRefusal::IsContainer);
    }
    if methods.len() == method_limit as usize {
        return Err(TreeRefusal::MethodsFull(method_limit));
    }
    let need = new_nodes(methods, places, at, address);
    let free = node_limit - node_count;
    if free < need {
        return Err(TreeRefusal::NodesFull(Room::new(need as u64, free as u64)));
    }
    Ok(Admission { at, need })
}

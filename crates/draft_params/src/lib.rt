// Parameters in the draft of a sheet (layout: draft_form, specs/Draft.antt; 02, M-103): whether one stands there, and
// each node of one replaced by its constant's. Time: one pass over the nodes for either.

#![tactic(auto)]

ghost use Rattle.std.specs.Prelude.{◌≡◌, ◌<◌, ◌≤◌, ◌^◌};
ghost use Rattle.std.specs.List.{list_any};
ghost use Rattle.draft_params.specs.Filling.{parameter_value, filled_node, fill_to, is_param, lacks_param};
ghost use Rattle.draft_form.specs.Sizes.{draft_nodes};
ghost use Rattle.spec_language.specs.Limits.{parameter_limit};

use draft_form::{Draft, layout};
use spec_language::limits;

const PARAMETERS: u64 = limits::PARAMETERS as u64;

// The value of parameter k: a word of the bytes lent, 0 where fewer than 32 are.
#[tactic(auto, unfolding(crate::specs::Filling::parameter_value))]
fn parameter_value(params: &[u8], k: usize) -> u64
    requires { k < parameter_limit }
    ensures value { result ≡ parameter_value params.now k }
    ensures upper_bound { result < 2 ^ 32 }
{
    if params.len() < limits::PARAMETER_BYTES {
        return 0;
    }
    lib_word::get_word(params, k) as u64
}

// The node that stands for it where the parameters are known.
#[tactic(auto, unfolding(crate::specs::Filling::filled_node))]
fn fill_node(params: &[u8], node: u64) -> u64
    ensures { result ≡ filled_node params.now node }
{
    if draft_form::node_tag(node) == layout::PARAMETER {
        return layout::CONSTANT_NODE + parameter_value(params, (node % PARAMETERS) as usize);
    }
    node
}

// Fills in the first `nodes` nodes of a draft.
#[tactic(auto, using(crate::proofs::Steps::fill_to_more), unfolding(crate::specs::Filling::fill_to))]
pub fn fill_draft(draft: &mut Draft, nodes: usize, params: &[u8])
    requires { nodes ≤ draft_nodes }
    ensures { draft.new ≡ fill_to params.now draft.old nodes }
{
    for node in draft[..nodes].iter_mut() {
        *node = fill_node(params, *node);
    }
}

// Whether a parameter is among these.
fn has_param(nodes: &[u64]) -> bool
    ensures { result ≡ list_any is_param nodes.now }
{
    nodes
        .iter()
        .any(|x| draft_form::node_tag(*x) == layout::PARAMETER)
}

// Whether a parameter is among the first `nodes` nodes and fewer than 32 bytes are lent.
#[tactic(auto, unfolding(crate::specs::Filling::lacks_param), using(crate::proofs::Steps::any_is))]
pub fn lacks_param(draft: &Draft, nodes: usize, params: &[u8]) -> bool
    requires { nodes ≤ draft_nodes }
    ensures { result ≡ lacks_param draft.now nodes params.now }
{
    if params.len() < limits::PARAMETER_BYTES {
        return has_param(&draft[..nodes]);
    }
    false
}

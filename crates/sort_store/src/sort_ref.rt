ghost use Rattle.std.specs.Prelude.{◌≡◌, ◌+◌, ◌<◌, ◌≤◌, IfOk, length, slice_get};
ghost use Rattle.std.specs.Option.{option_copied};
ghost use Rattle.sort_store.specs.Depth.{depth, depth_all};
ghost use Rattle.sort_store.specs.Size.{size_of_all};
ghost use Rattle.sort_store.specs.Tree as spec;
ghost use Rattle.sort_store.specs.Tree.{tree, trees, parts, node, nodes, sort};

use crate::head::{Head, depth_of_head};
use std::alloc::{AllocError, Global};
use std::marker::Model;
use std::rc::Rc;

/// The most nodes that a sort may have.
pub const MAX_NODES: u32 = 1000;

/// A sort that a store made, shared with all that use it.
#[cycle(sort)]
#[derive(Drop)]
pub struct SortRef {
    pub(crate) shared: Rc<SortNode>,
}

// A node with its entry's number in the store, and what is kept of its whole tree.
#[cycle(sort)]
#[derive(Drop)]
pub(crate) struct SortNode {
    pub(crate) number: usize,
    pub(crate) node_count: u32,
    pub(crate) print_depth: u32,
    pub(crate) head: Head,
    pub(crate) args: Vec<SortRef>,
}

impl Model for SortRef {
    ghost use Rattle.sort_store.specs.Tree.{NumberedSort, node, nodes};
    ghost use Rattle.sort_store.specs.Coded.{numbered_code};
    ghost use Rattle.sort_store.specs.Measured.{IsMeasured};
    ghost use Rattle.sort_store.specs.Size.{size_of, most_le-nodes_count};
    ghost use Rattle.std.proofs.Common.{arith};

    ghost Value = { NumberedSort };

    ghost coded = { numbered_code };

    ghost view = { λ a. node a.shared.value.number a.shared.value.head (nodes a.shared.value.args.items) };

    ghost invariant = { λ a. IsMeasured (node a.shared.value.number a.shared.value.head (nodes a.shared.value.args.items)) a.shared.value.node_count a.shared.value.print_depth };

    ghost size = { size_of };

    ghost size_decreases = { λ a h. omega (arith, most_le-nodes_count a.shared.value.args.items) };
}

impl SortRef {
    /// The sort symbol.
    pub fn head(&self) -> Head
        ensures { result ≡ spec.head self.now }
    {
        self.shared.head
    }

    /// How many arguments the sort symbol has.
    #[tactic(auto, using(crate::proofs::ArgumentLists::parts_given))]
    pub fn arg_count(&self) -> usize
        ensures { result ≡ length (parts self.now) }
    {
        self.shared.args.len()
    }

    /// An argument, counted from 0; none past the last one.
    #[tactic(auto, using(crate::proofs::ArgumentLists::parts_given))]
    pub fn arg(&self, i: usize) -> Option<&SortRef>
        ensures { option_copied result ≡ slice_get (parts self.now) i }
    {
        item_at(&self.shared.args, i)
    }

    /// How many sort symbols stand in the sort, at most 1,000.
    pub fn node_count(&self) -> u32
        ensures count { result ≡ spec.node_count (tree self.now) }
        ensures small { result ≤ 1000 }
    {
        self.shared.node_count
    }

    /// How many lists are nested in the sort's canonical text: 0 for `Bool`, 1 for `(_ BitVec 8)`
    /// and `(Array Int Bool)`.
    pub fn print_depth(&self) -> u32
        ensures { result ≡ depth (tree self.now) }
    {
        self.shared.print_depth
    }
}

impl Clone for SortRef {
    ghost is_clone = { λ r copy. copy ≡ r };

    fn clone(&self) -> Result<SortRef, AllocError> {
        let shared = self.shared.clone()?;
        Ok(SortRef { shared })
    }
}

// `items.get(i)`, with its answer as one equation.
pub(crate) fn item_at<T>(items: &[T], i: usize) -> Option<&T>
    ensures { option_copied result ≡ slice_get items.now i }
{
    items.get(i)
}

// A copy of a list of references.
fn clone_all(alloc: Global, args: &[SortRef]) -> Result<Vec<SortRef>, AllocError>
    ensures { IfOk result (λ v. v.items ≡ args.now) }
{
    let mut list = Vec::new(alloc);
    for arg in args {
        list.push(arg.clone()?)?;
    }
    Ok(list)
}

// How deep the deepest of the arguments nests.
fn deepest(args: &[SortRef]) -> u32
    ensures { result ≡ depth_all args.now }
{
    let mut deep = 0;
    for arg in args {
        deep = deep.max(arg.print_depth());
    }
    deep
}

// How deep a head with arguments nests.
#[tactic(auto, using(crate::proofs::Depths::depth_words))]
fn depth_of(head: &Head, args: &[SortRef]) -> u32
    requires { size_of_all args.now < 1000 }
    ensures { result ≡ depth (sort head.now (trees (nodes args.now))) }
{
    let head_depth = depth_of_head(head);
    if args.is_empty() {
        return head_depth;
    }
    deepest(args).max(head_depth) + 1
}

// A node with a number for its entry.
pub(crate) fn new_node(
    alloc: Global,
    number: usize,
    head: Head,
    args: &[SortRef],
    node_count: u32,
) -> Result<SortRef, AllocError>
    requires count { node_count ≡ size_of_all args.now + 1 }
    requires small { node_count ≤ 1000 }
    ensures { IfOk result (λ r. r ≡ node number head (nodes args.now)) }
{
    let print_depth = depth_of(&head, args);
    let args = clone_all(alloc, args)?;
    let node = SortNode {
        number,
        node_count,
        print_depth,
        head,
        args,
    };
    let shared = Rc::new(alloc, node)?;
    Ok(SortRef { shared })
}

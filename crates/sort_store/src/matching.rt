ghost use Rattle.std.specs.Prelude.{◌≡◌, ◌<◌, ◌↔◌, IsTrue, IfOk, length, map};
ghost use Rattle.sort_store.specs.Binding.{Fits, FitsEach, Fitted, FittedEach};
ghost use Rattle.sort_store.specs.FitAnswers.{FitAnswer, FitAnswerEach, FitAnswerParam};
ghost use Rattle.sort_store.specs.Instance.{ParamsBelow, EachParamsBelow};
ghost use Rattle.sort_store.specs.Tree.{tree, trees, nodes};

use crate::binding::Binding;
use crate::equality::same_tree;
use crate::head::param;
use crate::sort_ref::SortRef;
use crate::store::SortStore;
use io_core::NoMemory;
use std::alloc::AllocError;

// Whether the parameter has the value, or can have it; it then has it.
fn fit_param(binding: &mut Binding, i: usize, sort: &SortRef) -> Result<bool, AllocError>
    requires { i < length binding.old }
    ensures { IfOk result (λ yes. FitAnswerParam yes binding.old binding.new i sort.now) }
{
    if let Some(value) = binding.get(i) {
        return Ok(same_tree(value, sort));
    }
    binding.put(i, sort)?;
    Ok(true)
}

// Whether some values that agree with the binding make the schema the sort.
#[cycle(fit)]
fn fit(schema: &SortRef, sort: &SortRef, binding: &mut Binding) -> Result<bool, AllocError>
    requires { ParamsBelow (length binding.old) (tree schema.now) }
    ensures { IfOk result (λ yes. FitAnswer yes binding.old binding.new (tree schema.now) sort.now) }
{
    if let Some(i) = param(schema.shared.head) {
        return fit_param(binding, i as usize, sort);
    }
    if schema.shared.head != sort.shared.head {
        return Ok(false);
    }
    if schema.shared.args.len() != sort.shared.args.len() {
        return Ok(false);
    }
    fit_each(&schema.shared.args, &sort.shared.args, binding)
}

// Whether some values that agree with the binding make each schema the sort at its place.
#[cycle(fit)]
fn fit_each(
    schemas: &[SortRef],
    sorts: &[SortRef],
    binding: &mut Binding,
) -> Result<bool, AllocError>
    requires params { EachParamsBelow (length binding.old) (trees (nodes schemas.now)) }
    requires count { length schemas.now ≡ length sorts.now }
    ensures { IfOk result (λ yes. FitAnswerEach yes binding.old binding.new schemas.now sorts.now) }
{
    for (i, schema) in schemas.iter().enumerate() {
        if !fit(schema, &sorts[i], binding)? {
            return Ok(false);
        }
    }
    Ok(true)
}

impl SortStore {
    /// Whether some sorts for the parameters that agree with the binding make the schema the sort;
    /// the binding then gains what they have to be. Each parameter of the schema is below the
    /// binding's count. The only error is that memory runs out; after it and after false nothing is
    /// said of the binding.
    pub fn fits(
        &self,
        schema: &SortRef,
        sort: &SortRef,
        binding: &mut Binding,
    ) -> Result<bool, NoMemory>
        requires { ParamsBelow (length binding.old) (tree schema.now) }
        ensures fits { IfOk result (λ yes. IsTrue yes ↔ Fits binding.old (tree schema.now) (tree sort.now)) }
        ensures fitted { IfOk result (λ yes. IsTrue yes → Fitted binding.old binding.new (tree schema.now) sort.now) }
    {
        match fit(schema, sort, binding) {
            Ok(yes) => Ok(yes),
            Err(_) => Err(NoMemory),
        }
    }

    /// Whether some sorts for the parameters that agree with the binding make each schema the sort
    /// at its place, and there are as many sorts as schemas; the binding then gains what they have
    /// to be. Each parameter of the schemas is below the binding's count. The only error is that
    /// memory runs out; after it and after false nothing is said of the binding.
    pub fn fits_each(
        &self,
        schemas: &[SortRef],
        sorts: &[SortRef],
        binding: &mut Binding,
    ) -> Result<bool, NoMemory>
        requires { EachParamsBelow (length binding.old) (trees (nodes schemas.now)) }
        ensures fits { IfOk result (λ yes. IsTrue yes ↔ FitsEach binding.old (map tree schemas.now) (map tree sorts.now)) }
        ensures fitted { IfOk result (λ yes. IsTrue yes → FittedEach binding.old binding.new (map tree schemas.now) sorts.now) }
    {
        if schemas.len() != sorts.len() {
            return Ok(false);
        }
        match fit_each(schemas, sorts, binding) {
            Ok(yes) => Ok(yes),
            Err(_) => Err(NoMemory),
        }
    }
}

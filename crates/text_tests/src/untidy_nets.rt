// A net that has no model, as a rule applies to it.
use cover_decompose::{decompose, decompositions_stand, is_small, wires_are_bounded};
use graph_to_model::{ModelRefusal, model_of};
use rm_base::{NoMemory, NodeId};
use rm_model::{Cover, Listed, Model, Name, NameKeys, RankedModel, is_well_formed};
use std::alloc::Global;
use std::test::Fail;

fn name(alloc: Global, text: &str) -> Result<Name, NoMemory> {
    Ok(Listed::from_vec(Vec::from_slice(alloc, text.as_bytes())?))
}

// One output, whose cover has the row `0` of no inputs.
fn constant(alloc: Global) -> Result<Model, NoMemory> {
    let mut rows = Listed::new(alloc);
    rows.push(Listed::new(alloc))?;
    let mut covers = Listed::new(alloc);
    covers.push(Cover {
        inputs: Listed::new(alloc),
        output: name(alloc, "z")?,
        on: false,
        rows,
    })?;
    let mut outputs = Listed::new(alloc);
    outputs.push(name(alloc, "z")?)?;
    Ok(Model {
        name: name(alloc, "r6")?,
        inputs: Listed::new(alloc),
        clocks: Listed::new(alloc),
        outputs,
        latches: Listed::new(alloc),
        covers,
    })
}

// Why the decomposition of a model has no model, where it can be made.
fn refusal_of(alloc: Global, model: Model) -> Result<Option<ModelRefusal>, Fail> {
    decompositions_stand();
    wires_are_bounded();
    if !is_well_formed(alloc, NameKeys::Ordered, &model)? {
        return Err("not well formed".into());
    }
    if !is_small(alloc, NameKeys::Ordered, &model)? || model.covers.len() > 1_000_000 {
        return Err("not small".into());
    }
    let Ok(ranked) = RankedModel::new(alloc, NameKeys::Ordered, model) else {
        return Err("not ranked".into());
    };
    let Ok(graph) = decompose(alloc, &ranked) else {
        return Err("not decomposed".into());
    };
    match model_of(alloc, NameKeys::Ordered, &graph, ranked.model()) {
        Ok(_) => Ok(None),
        Err(refusal) => Ok(Some(refusal)),
    }
}

#[test]
fn the_first_gate_that_is_not_tidy(rt: HostRuntime) -> Result<(), Fail> {
    let alloc = rt.alloc();
    let refusal = refusal_of(alloc, constant(alloc)?)?;
    assert_eq!(rt; refusal, Some(ModelRefusal::NotTidy { node: NodeId(2) }));
    Ok(())
}

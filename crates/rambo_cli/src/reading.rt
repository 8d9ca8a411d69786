//! Reads the input as a model.
ghost use Rattle.std.specs.Prelude.{◌≡◌, ◌≤◌, length, IfOk, IfSome, None, Err, take, IfErr, IsSome};
ghost use Rattle.cover_decompose.specs.Count.{decomposed};
ghost use Rattle.cover_decompose.specs.Spelled.{plain_decomposed};
ghost use Rattle.rm_base.specs.Causes.{Rose};
ghost use Rattle.rm_base.specs.Files.{file_of};
ghost use Rattle.rambo_cli.specs.Files.{Holds};
ghost use Rattle.rambo_cli.specs.Input.{CauseBy, ReadCause};
ghost use Rattle.rambo_cli.specs.Inner.Problems.{IsOutside, TextCause};
ghost use Rattle.rambo_cli.specs.Written.{IsSaid};
ghost use Rattle.rambo_cli.specs.Inner.Written.{IsUsable};

use crate::problem::Problem;
use blif_format::Quantity;
use blif_reader::{read_model, texts_keep_limits};
use cover_decompose::wires_are_bounded;
use rm_base::Shelf;
use rm_model::{NameKeys, RankedModel, ranks_exist};
use std::alloc::Global;

const MOST_BYTES: usize = 16_777_216;

/// The bytes of a file, at most so many.
pub(crate) fn bytes_of<S: Shelf>(shelf: &mut S, name: &str, most: usize) -> Result<Vec<u8>, Problem>
    ensures found { IfOk result (λ text. IfSome (S.files shelf.old) (λ told. Holds told name.now (λ bytes. text.items ≡ take most bytes))) }
    ensures missing { result ≡ Err Problem.Missing → IfSome (S.files shelf.old) (λ told. file_of told name.now ≡ None) }
    ensures told { result ≡ Err Problem.Missing → IsSome (S.files shelf.old) }
    ensures fault { result ≡ Err Problem.Fault → Rose (S.faults shelf.old) (S.faults shelf.new) }
    ensures others { IfErr result IsOutside }
    ensures later { S.faults shelf.old ≤ S.faults shelf.new }
    ensures files { S.files shelf.new ≡ S.files shelf.old }
{
    let Some(text) = shelf.read(name, 0, most)? else {
        return Err(Problem::Missing);
    };
    Ok(text)
}

// The model that a text of at most 16,777,216 bytes says.
fn short_model(alloc: Global, keys: NameKeys, text: &[u8]) -> Result<RankedModel, Problem>
    requires { length text.now ≤ 16777216 }
    ensures said { IfOk result (λ model. IsSaid text.now model) }
    ensures usable { IfOk result IsUsable }
    ensures cause { IfErr result (TextCause decomposed text.now) }
    ensures plain_cause { IfErr result (TextCause plain_decomposed text.now) }
{
    ranks_exist();
    wires_are_bounded();
    texts_keep_limits();
    match read_model(alloc, keys, text) {
        Ok(model) => Ok(model),
        Err(refusal) => Err(Problem::from(refusal)),
    }
}

// The model that a text says.
fn model_of_text(alloc: Global, keys: NameKeys, text: &[u8]) -> Result<RankedModel, Problem>
    ensures said { IfOk result (λ model. IsSaid text.now model) }
    ensures usable { IfOk result IsUsable }
    ensures cause { IfErr result (TextCause decomposed text.now) }
    ensures plain_cause { IfErr result (TextCause plain_decomposed text.now) }
{
    if text.len() > MOST_BYTES {
        return Err(Problem::Limit {
            quantity: Quantity::Text,
            count: 16_777_217,
        });
    }
    short_model(alloc, keys, text)
}

/// The model of the input.
pub(crate) fn read_input<S: Shelf>(
    alloc: Global,
    keys: NameKeys,
    shelf: &mut S,
    input: &str,
) -> Result<RankedModel, Problem>
    ensures said { IfOk result (λ model. IfSome (S.files shelf.old) (λ told. Holds told input.now (λ text. IsSaid text model))) }
    ensures usable { IfOk result IsUsable }
    ensures cause { IfErr result (ReadCause input.now (S.files shelf.old) (S.faults shelf.old) (S.faults shelf.new)) }
    ensures plain_cause { IfErr result (CauseBy plain_decomposed input.now (S.files shelf.old) (S.faults shelf.old) (S.faults shelf.new)) }
    ensures files { S.files shelf.new ≡ S.files shelf.old }
    ensures later { S.faults shelf.old ≤ S.faults shelf.new }
{
    let text = bytes_of(shelf, input, MOST_BYTES + 1)?;
    model_of_text(alloc, keys, text.as_slice())
}

// A prefix that begins no kept name.
ghost use Rattle.std.specs.Prelude.{◌≡◌, ◌+◌, ◌++◌, ◌<◌, ◌^◌, IfOk, length, nat_eq};
ghost use Rattle.std.specs.List.{list_any, starts_with as begins_with};
ghost use Rattle.graph_to_model.specs.Names.{is_free as is_free_in, least_free as least_free_in, prefix as prefix_with};

use itoa::Buffer;
use rm_base::NoMemory;
use rm_model::Name;
use std::alloc::Global;

fn prefix_of(alloc: Global, number: usize) -> Result<Vec<u8>, NoMemory>
    ensures { IfOk result (λ text. text.items ≡ prefix_with number) }
{
    let mut buffer = Buffer::new();
    let mut text = Vec::new(alloc);
    text.push(b'n')?;
    text.extend_from_slice(buffer.format(number).as_bytes())?;
    text.push(b'_')?;
    Ok(text)
}

fn begins_any(names: &[Name], prefix: &[u8]) -> bool
    ensures { result ≡ list_any (λ x. begins_with nat_eq x prefix.now) names.now }
{
    for name in names {
        if name.items().starts_with(prefix) {
            return true;
        }
    }
    false
}

fn is_free(
    alloc: Global,
    sources: &[Name],
    observed: &[Name],
    number: usize,
) -> Result<bool, NoMemory>
    ensures { IfOk result (λ free. free ≡ is_free_in (sources.now ++ observed.now) number) }
{
    let prefix = prefix_of(alloc, number)?;
    if begins_any(sources, prefix.as_slice()) {
        return Ok(false);
    }
    Ok(!begins_any(observed, prefix.as_slice()))
}

// Each kept name begins with one prefix at most, so as many tries as names are enough.
fn least_free(alloc: Global, sources: &[Name], observed: &[Name]) -> Result<usize, NoMemory>
    requires { length sources.now + length observed.now < 2 ^ 63 }
    ensures { IfOk result (λ t. t ≡ least_free_in (length (sources.now ++ observed.now)) 0 (sources.now ++ observed.now)) }
{
    let mut number = 0usize;
    let mut tries = sources.len() + observed.len();
    while tries > 0 {
        if is_free(alloc, sources, observed, number)? {
            return Ok(number);
        }
        number += 1;
        tries -= 1;
    }
    Ok(number)
}

/// The prefix of the names that are made.
pub fn free_prefix(alloc: Global, sources: &[Name], observed: &[Name]) -> Result<Vec<u8>, NoMemory>
    requires { length sources.now + length observed.now < 2 ^ 63 }
    ensures { IfOk result (λ text. text.items ≡ prefix_with (least_free_in (length (sources.now ++ observed.now)) 0 (sources.now ++ observed.now))) }
{
    let number = least_free(alloc, sources, observed)?;
    prefix_of(alloc, number)
}

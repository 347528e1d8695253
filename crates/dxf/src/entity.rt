// The first LWPOLYLINE of a text.
ghost use Rattle.std.specs.Prelude.{◌≡◌};
ghost use Rattle.dxf.specs.Item.{items_in};
ghost use Rattle.dxf.specs.Entity as entity;
ghost use Rattle.dxf.specs.State.{Read};

use crate::item::split_entry;
use crate::state::{OUTLINE_NUMBERS, State};
use real::Refusal;

// The entity whose items these are.
fn body(text: &[u8], out: &mut [f64; OUTLINE_NUMBERS]) -> Result<State, Refusal>
    ensures { Read (entity.body_of entity.start (items_in text.now)) result out.new }
{
    let mut rest = text;
    let mut state = State::default();
    while let Some(entry) = split_entry(rest)? {
        if entry.code == 0 {
            break;
        }
        let value = entry.value.ok_or(Refusal::BadText)?;
        state = state.step(entry.code, value, out)?;
        rest = entry.rest;
    }
    if !state.may_end() {
        return Err(Refusal::BadText);
    }
    Ok(state)
}

fn is_name(value: &[u8]) -> bool
    ensures { result ≡ entity.same value.now entity.name }
{
    value == b"LWPOLYLINE".as_slice()
}

// The first LWPOLYLINE, in a buffer for the largest outline.
pub(crate) fn read(text: &[u8], out: &mut [f64; OUTLINE_NUMBERS]) -> Result<State, Refusal>
    ensures { Read (entity.entity_of (items_in text.now)) result out.new }
{
    let mut rest = text;
    while let Some(entry) = split_entry(rest)? {
        let value = entry.value.ok_or(Refusal::BadText)?;
        if entry.code == 0 && is_name(value) {
            return body(entry.rest, out);
        }
        rest = entry.rest;
    }
    Err(Refusal::BadText)
}

// Codes and values, in pairs of lines.
ghost use Rattle.std.specs.Prelude.{◌≡◌};
ghost use Rattle.real.specs.Reply.{reply};
ghost use Rattle.dxf.specs.Item as spec;

use crate::line::split_line;
use numeral::whole;
use real::Refusal;

// The most digits of a code.
const CODE_DIGITS: usize = 4;

// A code, its value where there is a line for it, and what stands after them.
#[derive(Clone, Copy)]
pub struct Entry<'a> {
    pub code: u64,
    pub value: Option<&'a [u8]>,
    pub rest: &'a [u8],
}

// The number of a code.
fn code(text: &[u8]) -> Result<u64, Refusal>
    ensures { reply result ≡ spec.code_of text.now }
{
    if text.len() > CODE_DIGITS {
        return Err(Refusal::BadText);
    }
    whole(text)
}

// What a text begins with, if anything is left of it.
pub(crate) fn split_entry(text: &[u8]) -> Result<Option<Entry<'_>>, Refusal>
    ensures { spec.BeginsWith text.now result }
{
    let Some((line, after)) = split_line(text) else {
        return Ok(None);
    };
    let code = code(line)?;
    let Some((value, rest)) = split_line(after) else {
        return Ok(Some(Entry {
            code,
            value: None,
            rest: after,
        }));
    };
    Ok(Some(Entry {
        code,
        value: Some(value),
        rest,
    }))
}

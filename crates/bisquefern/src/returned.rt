// What the C face returns.
ghost use Rattle.std.specs.Prelude.{◌≡◌};
ghost use Rattle.lent.specs.Lent.{done};

use real::Refusal;

// 0 where a call is done, else its refusal's number.
pub fn code(answer: Result<(), Refusal>) -> u8
    ensures { result ≡ done answer }
{
    match answer {
        Ok(()) => 0,
        Err(refusal) => u8::from(refusal),
    }
}

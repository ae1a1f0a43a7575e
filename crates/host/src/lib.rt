// What each function for C hosts does with an answer in the end.
#![tactic(auto)]

ghost use Rattle.host.specs.Host.{HandedOut};

use refusal::Refusal;

// Hands out a number, and returns 0; or a refusal's offset, and returns its number.
pub fn hand_out(answer: Result<u64, Refusal>, out: &mut u64) -> u64
    ensures { HandedOut result out.new answer }
{
    match answer {
        Ok(n) => {
            *out = n;
            0
        }
        Err(r) => {
            *out = r.at as u64;
            r.fault.number()
        }
    }
}
